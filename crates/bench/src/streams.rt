// The streams of the program, and what is told of one that failed.
use arrayvec::ArrayString;
use std::fmt::Write as _;
use std::io::{Eprint, ErrorKind};
use std::{io, thread};

// A stream failed. It is told on standard error where it happens.
#[derive(Clone, Copy, Debug, PartialEq, Eq)]
pub struct Failed;

// Where the program reads, where it writes its answers, and where it tells what failed.
#[derive(Drop)]
pub struct Streams<I, O, E> {
    pub input: I,
    pub output: O,
    pub errors: E,
}

// Whether a call that failed is to be made again: a signal came, or the stream is one that does not wait. There is no
// call to wait until it is ready, so other processes are let run meanwhile.
pub fn is_again(error: &io::Error) -> bool {
    match error.kind() {
        ErrorKind::Interrupted => true,
        ErrorKind::WouldBlock => {
            thread::yield_now();
            true
        }
        _ => false,
    }
}

// The text of a system's error without the number of the error, which std puts behind it.
fn without_number(text: &str) -> &str {
    match text.split_once(" (os error ") {
        Some((cause, _)) => cause,
        None => text,
    }
}

// Tells on standard error that a stream failed, and why.
pub fn tell(errors: &impl Eprint, stream: &str, error: &io::Error) {
    let mut text = ArrayString::<320>::new();
    let _ = write!(text, "{error}");
    let cause = without_number(text.as_str());
    let _ = eprintln!(errors; "bench: {stream}: {cause}");
}
