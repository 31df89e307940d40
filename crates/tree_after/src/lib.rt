// The tree after an insertion, written into the work area: a part for each node, children before their node,
// append-only.
#![tactic(auto)]

mod counting;
mod leaf;
mod node;
mod off_path;
mod on_path;
mod sides;

pub use counting::count_tree;
pub use on_path::{Written, write_tree};
