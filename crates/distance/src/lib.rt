// Squared distances from a cell: to a cell, to a rectangle, to a polygon. They are 64-bit numbers, since two cells
// may be 2 * 65535 * 65535 apart.
#![tactic(auto)]

mod clamp;
mod least;
mod squared;

pub use least::least_distance;
pub use squared::{rect_distance, squared_distance};
