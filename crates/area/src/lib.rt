// Areas as numbers of cells: how many cells of a rectangle a polygon lacks, the extra area of a polygon's rectangle,
// and how many cells a polygon removes from a list. Sums of cells are 64-bit numbers: the grid has 4294967296.
#![tactic(auto)]

mod bounds;
mod extra;
mod grid;
mod lacks;
mod one;
mod removing;
mod totals;

pub use bounds::bounds_of;
pub use extra::extra_area;
pub use grid::ALL_CELLS;
pub use lacks::lacking;
pub use one::extra_of_one;
pub use removing::removed_cells;
pub use totals::total_area;
