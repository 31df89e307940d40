// The emptiness query: whether no entry is in a window, by a walk that stops at the first entry in it.
#![tactic(auto)]

mod below;
mod leaf;
mod query;

pub use query::{is_empty, is_empty_known};
