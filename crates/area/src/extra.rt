// The extra area of a rectangle of a polygon.
ghost use Rattle.std.specs.Prelude.{◌≡◌, true, [], ◌∷◌, ◌*◌, ◌≤◌, ◌<◌, min, length};
ghost use Rattle.geometry.specs.Cells.{on_grid, valid};
ghost use Rattle.geometry.specs.Numbers.{rect_at, rects_in};
ghost use Rattle.area.specs.Bounds.{bounds_of};
ghost use Rattle.area.specs.Lacked.{lacked, extra_area};

use crate::lacks::lacking;
use crate::one::extra_of_one;
use geometry::{Cell, Rect, Rects, rect_at};

// How many cells of g are not in b.
fn outside(g: Rect, b: Rect) -> u64
    requires { valid g ≡ true }
    ensures { result ≡ lacked (b ∷ []) g }
{
    let a = g.area();
    if let Some(part) = g.common(b) {
        return a - part.area();
    }
    a
}

// The extra area of the i-th rectangle of a polygon of n, grown to the cell, or the limit where that is less. The
// polygon lacks all cells of the grown rectangle outside its bounds: where these reach the limit no more is counted.
pub fn extra_area(list: &[u32], n: usize, i: usize, c: Cell, bounds: Rect, limit: u64) -> u64
    requires i_lt_n { i < n }
    requires n_in_bounds { 4 * n ≤ length list.now }
    requires i_value { valid (rect_at list.now i) ≡ true }
    requires c_value { on_grid c ≡ true }
    requires bounds_value { bounds ≡ bounds_of (rects_in list.now n) }
    ensures { result ≡ min limit (extra_area (rects_in list.now n) (rect_at list.now i) c) }
{
    let r = rect_at(list, i);
    if n == 1 {
        return limit.min(extra_of_one(r, c));
    }
    let g = r.grow(c);
    if limit <= outside(g, bounds) {
        return limit;
    }
    lacking(Rects::new(list, n), g, limit)
}
