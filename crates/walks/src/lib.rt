// Walks in a memory that can be walked: children, polygons and entries of its nodes. A walk below a node that
// calls itself is a function of its own: a recursion through a closure gets no proof.
#![tactic(auto)]

mod child;
mod count;
mod walk;

pub use child::{Child, child_with};
pub use count::entries_below;
pub use walk::{polygon_has, polygon_meets};
