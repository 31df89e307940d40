// The writes of a text to the output.
ghost use Rattle.std.specs.Prelude.{◌≡◌, OnOk};
ghost use Rattle.std.specs.Io.KnownBytes.{Appends};
ghost use Rattle.bench.specs.Written.{StartWritten};

use crate::streams::{Failed, Streams, is_again, tell};
use std::io::{Eprint, Write};

// Writes the text, in as many writes as it takes. A write that fails, or takes nothing, is told to
// standard error. The loop counts its turns, as that of read_once.
pub fn write_answers<I, O: Write, E: Eprint>(
    streams: &mut Streams<I, O, E>,
    text: &[u8],
) -> Result<(), Failed>
    ensures start { StartWritten (O.contents streams.old.output) (O.contents streams.new.output) text.now }
    ensures all { OnOk result (Appends (O.contents streams.old.output) (O.contents streams.new.output)
        text.now) }
    ensures input_kept { streams.new.input ≡ streams.old.input }
{
    let mut rest = text;
    for _ in 0..u64::MAX {
        if rest.is_empty() {
            return Ok(());
        }
        match streams.output.write(rest) {
            Ok(0) => {
                let _ = eprintln!(&streams.errors; "bench: standard output takes nothing");
                return Err(Failed);
            }
            Ok(n) => rest = &rest[n..],
            Err(error) => {
                if !is_again(&error) {
                    tell(&streams.errors, "standard output", &error);
                    return Err(Failed);
                }
            }
        }
    }
    Err(Failed)
}
