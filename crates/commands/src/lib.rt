// The lines of the program `bench`: a command read from a line, an answer written as lines.
#![tactic(auto)]

mod answer_lines;
mod fields;
mod number;
mod output;
mod parsing;
mod split;

pub use answer_lines::{put_cleared, put_inserted, put_other, put_point, put_removed, put_window};
pub use output::Output;
pub use parsing::{Command, parse};
pub use split::find_byte;
