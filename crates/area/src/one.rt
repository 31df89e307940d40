// The extra area of a polygon of one rectangle: nothing has to be cut.
ghost use Rattle.std.specs.Prelude.{◌≡◌, true, [], ◌∷◌};
ghost use Rattle.geometry.specs.Cells.{on_grid, valid};
ghost use Rattle.area.specs.Lacked.{extra_area};

use geometry::{Cell, Rect};

// The new area minus the old.
pub fn extra_of_one(r: Rect, c: Cell) -> u64
    requires r_value { valid r ≡ true }
    requires c_value { on_grid c ≡ true }
    ensures { result ≡ extra_area (r ∷ []) r c }
{
    let g = r.grow(c);
    g.area() - r.area()
}
