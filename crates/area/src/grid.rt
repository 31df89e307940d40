// The cells of the grid: no rectangle has more.
pub const ALL_CELLS: u64 = 4294967296;
