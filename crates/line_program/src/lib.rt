// A session of the program `bench`: lines answered by calls of the index.
#![tactic(auto)]

mod opening;
mod response;
mod stream;

pub use response::answer_line;
pub use stream::{Progress, answer_lines, keep_rest};
