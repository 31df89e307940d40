// The cells that a polygon removes from a list, which may both overlap themselves: a cell under several rectangles is
// counted once.
ghost use Rattle.std.specs.Prelude.{◌≡◌, true, ◌+◌, ◌*◌, ◌≤◌, length, drop};
ghost use Rattle.geometry.specs.Cells.{all_valid};
ghost use Rattle.geometry.specs.Numbers.{rects_in};
ghost use Rattle.area.specs.Removed.{removed};

use crate::grid::ALL_CELLS;
use crate::lacks::lacking;
use geometry::{Rects, rect_at};

// How many cells the polygon of the first k rectangles removes from the list of the n behind them. Each cell is
// counted at the last of the polygon's rectangles that has it. The polygon stands first because it is short: what its
// later rectangles have is cut off before the long list is looked at.
pub fn removed_cells(rects: &[u32], k: usize, n: usize) -> u64
    requires k_bound { k ≤ 16 }
    requires n_bound { n ≤ 256 }
    requires n_in_bounds { 4 * (k + n) ≤ length rects.now }
    requires n_value { all_valid (rects_in rects.now (k + n)) ≡ true }
    ensures { result ≡ removed (drop k (rects_in rects.now (k + n))) (rects_in rects.now k) }
{
    let mut sum: u64 = 0;
    for j in 0..k {
        let s = rect_at(rects, j);
        // the cells that the polygon's later rectangles lack, and of these the ones that the list lacks too
        let new = lacking(Rects::between(rects, j + 1, k), s, ALL_CELLS);
        let outside = lacking(Rects::between(rects, j + 1, k + n), s, new);
        sum += new - outside;
    }
    sum
}
