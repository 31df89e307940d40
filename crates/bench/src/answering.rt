// The lines of the bytes that were read, answered and their answers written.
ghost use Rattle.std.specs.Prelude.{◌≡◌, ◌+◌, ◌*◌, ◌≤◌, length, take};
ghost use Rattle.line_program.specs.Response.{lent};
ghost use Rattle.bench.specs.Bounds.{Lengths};
ghost use Rattle.bench.specs.Served.{AllServed, FirstServed, LastServed};
ghost use Rattle.bench.specs.Written.{AllWritten, FirstWritten, LastWritten};

use crate::streams::{Failed, Streams};
use crate::writing::write_answers;
use commands::Output;
use line_program::{answer_line, answer_lines, keep_rest};
use std::io::{Eprint, Read, Write};

// Answers the whole lines of the input, and writes the answers. Answers where the line that has not ended starts.
fn answer_all<I: Read, O: Write, E: Eprint>(
    streams: &mut Streams<I, O, E>,
    input: &[u8],
    m: &mut [u32],
    work: &mut [u32],
    list: &mut [u32],
    out: &mut [u8],
) -> Result<usize, Failed>
    requires list_len_bound { length list.old ≤ 65536 }
    requires list_in_bounds { 64 + 12 * length list.old ≤ length out.old }
    ensures served { AllServed input.now (lent m.old work.old list.old)
        (lent m.new work.new list.new) result }
    ensures written { AllWritten input.now (O.contents streams.old.output) (O.contents streams.new.output)
        (lent m.old work.old list.old)
        (lent m.new work.new list.new) result }
    ensures input_kept { streams.new.input ≡ streams.old.input }
{
    let mut from = 0;
    loop {
        let p = answer_lines(input, from, m, work, list, out);
        write_answers(streams, &out[..p.written])?;
        from = p.next;
        if p.done {
            return Ok(from);
        }
    }
}

// Answers the whole lines of the input's first bytes, and keeps what they leave at its start.
pub fn answer_first<I: Read, O: Write, E: Eprint>(
    streams: &mut Streams<I, O, E>,
    to: usize,
    m: &mut [u32],
    work: &mut [u32],
    list: &mut [u32],
    input: &mut [u8],
    out: &mut [u8],
) -> Result<usize, Failed>
    requires to_in_bounds { to ≤ length input.old }
    requires lengths { Lengths (length list.old) (length input.old) (length out.old) }
    ensures served { FirstServed (take to input.old) input.new
        (lent m.old work.old list.old)
        (lent m.new work.new list.new) result }
    ensures written { FirstWritten (take to input.old) input.new
        (O.contents streams.old.output) (O.contents streams.new.output)
        (lent m.old work.old list.old)
        (lent m.new work.new list.new) result }
    ensures input_kept { streams.new.input ≡ streams.old.input }
{
    let from = answer_all(streams, &input[..to], m, work, list, out)?;
    Ok(keep_rest(input, from, to))
}

// Answers the last line, which has no LF, if it has a byte.
pub fn answer_last<I: Read, O: Write, E: Eprint>(
    streams: &mut Streams<I, O, E>,
    kept: usize,
    m: &mut [u32],
    work: &mut [u32],
    list: &mut [u32],
    input: &[u8],
    out: &mut [u8],
) -> Result<(), Failed>
    requires kept_bound { kept ≤ 81 }
    requires lengths { Lengths (length list.old) (length input.now) (length out.old) }
    ensures served { LastServed (take kept input.now)
        (lent m.old work.old list.old)
        (lent m.new work.new list.new) }
    ensures written { LastWritten (take kept input.now)
        (O.contents streams.old.output) (O.contents streams.new.output)
        (lent m.old work.old list.old)
        (lent m.new work.new list.new) result }
{
    if kept == 0 {
        return Ok(());
    }
    let mut output = Output { bytes: out, at: 0 };
    answer_line(&input[..kept], m, work, list, &mut output);
    let n = output.at;
    write_answers(streams, &out[..n])
}
