// Clearing, and removal from the index, in place: along one path from the root to a leaf, and back up while nodes are
// emptied.
#![tactic(auto)]

mod below;
mod clearing;
mod place;
mod removing;

pub use clearing::clear;
pub use removing::{remove, remove_known};
