// Lists of rectangles against each other, four numbers a rectangle: the geometry of the soundness test.
#![tactic(auto)]

mod covering;
mod scans;

pub use covering::{inside, next_shared};
pub use scans::are_apart;
