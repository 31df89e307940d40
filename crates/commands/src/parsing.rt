// A line read as a command.
ghost use Rattle.std.specs.Prelude.{◌≡◌};
ghost use Rattle.commands.specs.Commands.{command_for, command_of};

use crate::fields::read_numbers;
use crate::split::find_byte;

#[derive(Clone, Copy, Debug, PartialEq, Eq)]
pub enum Command {
    Insert {
        x: u32,
        y: u32,
        tag: u32,
    },
    Remove {
        x: u32,
        y: u32,
    },
    Point {
        x: u32,
        y: u32,
    },
    Window {
        llx: u32,
        lly: u32,
        urx: u32,
        ury: u32,
    },
    Clear,
}

// The command of a letter and the numbers behind it.
#[tactic(auto, unfolding(crate::specs::Commands::command_for))]
fn choose(letter: u8, numbers: &[u32]) -> Option<Command>
    ensures { result ≡ command_for letter numbers.now }
{
    match (letter, numbers) {
        (b'I', &[x, y, tag]) => Some(Command::Insert { x, y, tag }),
        (b'R', &[x, y]) => Some(Command::Remove { x, y }),
        (b'P', &[x, y]) => Some(Command::Point { x, y }),
        (b'S', &[llx, lly, urx, ury]) => Some(Command::Window { llx, lly, urx, ury }),
        (b'C', []) => Some(Command::Clear),
        _ => None,
    }
}

// The command of a line without its LF.
pub fn parse(line: &[u8]) -> Option<Command>
    ensures { result ≡ command_of line.now }
{
    if 80 < line.len() || find_byte(line, 0, b' ') != 1 {
        return None;
    }
    let numbers = read_numbers(line)?;
    choose(line[0], numbers.as_slice())
}
