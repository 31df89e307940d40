// The line at which a node is split: document 01, 'Insertion', step 4, 'The line'.
#![tactic(auto)]

mod candidates;
mod extent;
mod extents;
mod leaf;
mod node;
mod sides;

pub use leaf::leaf_line;
pub use node::node_line;
pub use sides::{is_on, on_all};
