// The nearest query: the entry nearest a cell, its squared distance, and the nodes that the walk enters.
#![tactic(auto)]

mod below;
mod leaf;
mod near;
mod query;

pub use query::{nearest, nearest_known};
