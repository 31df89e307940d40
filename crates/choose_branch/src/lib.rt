// Step 2 of an insertion on memory: the branch of a routing node that it goes to, and that branch's polygon.
#![tactic(auto)]

mod alone;
mod branch;
mod choosing;
mod least;
mod pieces;
mod replacing;
mod siblings;

pub use choosing::{Choice, choose};
