// The line program `bench`: commands from standard input, answers to standard output. The index has 64
// parts, and the result list holds 512 entries.
#![tactic(auto)]

use running::run;
use std::process::ExitCode;
use streams::{Failed, Streams};

mod answering;
mod reading;
mod running;
mod streams;
mod writing;

fn main(rt: HostRuntime) -> ExitCode {
    let mut streams = Streams {
        input: rt.stdin(),
        output: rt.stdout(),
        errors: rt.stderr(),
    };
    let mut m = [0; 8256];
    let mut work = [0; 8256];
    let mut list = [0; 1536];
    // 65,536 bytes each, so that most reads and writes move much at once
    let mut input = [0; 65536];
    let mut out = [0; 65536];
    match run(
        &mut streams,
        &mut m,
        &mut work,
        &mut list,
        &mut input,
        &mut out,
    ) {
        Ok(()) => ExitCode::SUCCESS,
        Err(Failed) => ExitCode::FAILURE,
    }
}
