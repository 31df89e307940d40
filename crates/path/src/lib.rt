// The path of an insertion, from the root down to the leaf that gets the entry: a level for each of its nodes, a level
// being the number of steps down to the leaf.
#![tactic(auto)]

mod level;

pub use level::Level;
