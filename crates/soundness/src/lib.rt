// Whether a memory reads as a sound tree: refusal 4.
#![tactic(auto)]

mod check;
mod leaf;
mod opening;

pub use opening::{Root, open, open_known};
