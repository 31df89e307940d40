// A function that makes the calls of a list: demand 3 as a function's own promise.
#![tactic(auto)]

mod calling;
mod coded;
mod replaying;
mod replies;

pub use replaying::replay;
