// Squared distances of cells and rectangles by value.
ghost use Rattle.std.specs.Prelude.{◌≡◌, true};
ghost use Rattle.geometry.specs.Cells.{on_grid, valid};
ghost use Rattle.distance.specs.Distance.{squared, rect_distance};

use crate::clamp::clamp_to;
use geometry::{Cell, Rect};

// The squared distance of two cells.
pub fn squared_distance(c: Cell, d: Cell) -> u64
    requires c_value { on_grid c ≡ true }
    requires d_value { on_grid d ≡ true }
    ensures { result ≡ squared c d }
{
    let dx = c.x.abs_diff(d.x) as u64;
    let dy = c.y.abs_diff(d.y) as u64;
    dx * dx + dy * dy
}

// The least squared distance from the cell to a cell of the rectangle.
pub fn rect_distance(c: Cell, r: Rect) -> u64
    requires c_value { on_grid c ≡ true }
    requires r_value { valid r ≡ true }
    ensures { result ≡ rect_distance c r }
{
    let x = clamp_to(r.llx, r.urx, c.x);
    let y = clamp_to(r.lly, r.ury, c.y);
    squared_distance(c, Cell { x, y })
}
