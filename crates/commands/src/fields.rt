// The numbers behind the letter of a command.
ghost use Rattle.std.specs.Prelude.{◌≡◌, MatchOption, Some};
ghost use Rattle.commands.specs.Fields.{numbers_in, NotFew};
ghost use Rattle.commands.specs.Split.{PieceEnd};

use crate::number::read_number;
use crate::split::find_byte;
use arrayvec::ArrayVec;

// Reads the fields of a line that has one byte before its first space. None if one is no number or there are more
// than four, since no command has more.
pub fn read_numbers(line: &[u8]) -> Option<ArrayVec<u32, 4>>
    requires { PieceEnd 32 line.now 0 1 }
    ensures { MatchOption result (NotFew (numbers_in line.now)) (λ read. numbers_in line.now ≡ Some read.items) }
{
    let mut numbers = ArrayVec::new();
    let mut at = 1;
    // a while: the next field starts where this one ends
    while at < line.len() {
        let end = find_byte(line, at + 1, b' ');
        let number = read_number(&line[at + 1..end])?;
        numbers.try_push(number).ok()?;
        at = end;
    }
    Some(numbers)
}
