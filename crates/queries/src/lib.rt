// The point query and the window query, and whether a cell is held.
#![tactic(auto)]

mod holding;
mod listing;
mod point_query;
mod window_query;

pub use holding::is_held;
pub use point_query::{point, point_known};
pub use window_query::{window, window_known};
