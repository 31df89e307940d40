// Lines taken from the bytes that were read so far.
ghost use Rattle.std.specs.Prelude.{◌+◌, ◌*◌, ◌≤◌, length};
ghost use Rattle.line_program.specs.Response.{lent};
ghost use Rattle.line_program.specs.Stream.{LinesAnswered, Kept};

use crate::opening::is_index;
use crate::response::respond;
use commands::{Output, find_byte};

// How far the lines are answered. No Option: the numbers mean the same, whether a line is left or not.
#[derive(Clone, Copy, Debug, PartialEq, Eq)]
pub struct Progress {
    // where the first line that is not answered starts
    pub next: usize,
    // the bytes of the answers
    pub written: usize,
    // whether no whole line is left
    pub done: bool,
}

// Answers the whole lines of the input from a place on, each up to its LF, as long as there is room for
// one more answer. The answers are put at the start of out. The index is tested once; the calls leave a sound
// one sound, so it need not be tested for each line.
pub fn answer_lines(
    input: &[u8],
    from: usize,
    m: &mut [u32],
    work: &mut [u32],
    list: &mut [u32],
    out: &mut [u8],
) -> Progress
    requires from_in_bounds { from ≤ length input.now }
    requires list_len_bound { length list.old ≤ 65536 }
    requires list_in_bounds { 64 + 12 * length list.old ≤ length out.old }
    ensures { LinesAnswered input.now from
        (lent m.old work.old list.old)
        (lent m.new work.new list.new) out.new result }
{
    let room = out.len() - (64 + 12 * list.len());
    let known = is_index(m);
    let mut output = Output { bytes: out, at: 0 };
    let mut next = from;
    while output.at <= room {
        let end = find_byte(input, next, b'\n');
        if end == input.len() {
            return Progress {
                next,
                written: output.at,
                done: true,
            };
        }
        respond(&input[next..end], m, work, list, known, &mut output);
        next = end + 1;
    }
    Progress {
        next,
        written: output.at,
        done: false,
    }
}

// Moves the bytes of the input between two places to its start; answers how many. Of a line over 80
// bytes it keeps 81, since such lines are all answered alike.
pub fn keep_rest(input: &mut [u8], from: usize, to: usize) -> usize
    requires from_le_to { from ≤ to }
    requires to_in_bounds { to ≤ length input.old }
    ensures { Kept input.old from to input.new result }
{
    let kept = (to - from).min(81);
    input.copy_within(from..from + kept, 0);
    kept
}
