// The whole input, in as many reads as it takes.
ghost use Rattle.std.specs.Prelude.{◌≡◌, ◌≤◌, length};
ghost use Rattle.history.specs.Calls.{fresh_memory};
ghost use Rattle.line_program.specs.Response.{lent};
ghost use Rattle.bench.specs.Bounds.{Lengths};
ghost use Rattle.bench.specs.Served.{TurnServed, Claimed};
ghost use Rattle.bench.specs.Written.{TurnWritten, RunWritten};

use crate::answering::{answer_first, answer_last};
use crate::reading::read_once;
use crate::streams::{Failed, Streams};
use std::io::{Eprint, Read, Write};

// Reads once behind the bytes kept, and answers the lines that are whole then. Answers how many bytes of a line that
// has not ended are kept at the start of the input; none at the input's end.
fn read_some<I: Read, O: Write, E: Eprint>(
    streams: &mut Streams<I, O, E>,
    kept: usize,
    m: &mut [u32],
    work: &mut [u32],
    list: &mut [u32],
    input: &mut [u8],
    out: &mut [u8],
) -> Result<Option<usize>, Failed>
    requires kept_bound { kept ≤ 81 }
    requires lengths { Lengths (length list.old) (length input.old) (length out.old) }
    ensures served { TurnServed (lent m.old work.old list.old)
        (lent m.new work.new list.new) result }
    ensures written { TurnWritten (I.remaining streams.old.input) (I.remaining streams.new.input)
        (O.contents streams.old.output) (O.contents streams.new.output) kept input.old input.new
        (lent m.old work.old list.old)
        (lent m.new work.new list.new) result }
{
    let n = read_once(streams, &mut input[kept..])?;
    if n == 0 {
        return Ok(None);
    }
    let to = kept + n;
    let rest = answer_first(streams, to, m, work, list, input, out)?;
    Ok(Some(rest))
}

// Reads to the end of the input, from a fresh index on. The loop counts its turns, as that of read_once.
pub fn run<I: Read, O: Write, E: Eprint>(
    streams: &mut Streams<I, O, E>,
    m: &mut [u32],
    work: &mut [u32],
    list: &mut [u32],
    input: &mut [u8],
    out: &mut [u8],
) -> Result<(), Failed>
    requires m_value { m.old ≡ fresh_memory 64 }
    requires lengths { Lengths (length list.old) (length input.old) (length out.old) }
    ensures claimed { Claimed (lent m.old work.old list.old)
        (lent m.new work.new list.new) }
    ensures written { RunWritten (I.remaining streams.old.input)
        (O.contents streams.old.output) (O.contents streams.new.output)
        (lent m.old work.old list.old)
        (lent m.new work.new list.new) result }
{
    let mut kept = 0;
    for _ in 0..u64::MAX {
        match read_some(streams, kept, m, work, list, input, out)? {
            Some(n) => kept = n,
            None => return answer_last(streams, kept, m, work, list, input, out),
        }
    }
    Err(Failed)
}
