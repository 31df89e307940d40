// A read from the input.
ghost use Rattle.std.specs.Prelude.{◌≡◌, ◌<◌, ◌≤◌, length, take, IfOk, OnErr};
ghost use Rattle.std.specs.Io.KnownBytes.{Consumes, IsAtEnd, Keeps};

use crate::streams::{Failed, Streams, is_again, tell};
use std::io::{Eprint, Read};

// Reads once, and again where the read is to be made again. A read that fails is told to standard error. A proved loop
// has to end, and nothing says that the input comes, so the loop counts its turns, of which no run uses up as many.
pub fn read_once<I: Read, O, E: Eprint>(
    streams: &mut Streams<I, O, E>,
    buf: &mut [u8],
) -> Result<usize, Failed>
    ensures bound { IfOk result (λ n. n ≤ length buf.new) }
    ensures bytes { IfOk result (λ n. Consumes (I.remaining streams.old.input) (I.remaining streams.new.input)
        (take n buf.new)) }
    ensures end { IfOk result (λ n. n ≡ 0 → 0 < length buf.new → IsAtEnd (I.remaining streams.new.input)) }
    ensures failed { OnErr result (Keeps (I.remaining streams.old.input) (I.remaining streams.new.input)) }
    ensures output_kept { streams.new.output ≡ streams.old.output }
{
    for _ in 0..u64::MAX {
        match streams.input.read(buf) {
            Ok(n) => return Ok(n),
            Err(error) => {
                if !is_again(&error) {
                    tell(&streams.errors, "standard input", &error);
                    return Err(Failed);
                }
            }
        }
    }
    Err(Failed)
}
