// The least squared distance from a cell to the rectangles of a list.
ghost use Rattle.std.specs.Prelude.{◌≡◌, true};
ghost use Rattle.polygons.specs.Rules.{least_distance};
ghost use Rattle.geometry.specs.Cells.{on_grid, all_valid};
ghost use Rattle.geometry.specs.Rects.{rects_left};
ghost use Rattle.distance.specs.Distance.{rect_distance};

use crate::squared::rect_distance;
use geometry::{Cell, Rects};

// The least squared distance from the cell to a cell of the rectangles; 0 where there are none.
pub fn least_distance(rects: Rects, c: Cell) -> u64
    requires rects_value { all_valid (rects_left rects) ≡ true }
    requires c_value { on_grid c ≡ true }
    ensures { result ≡ least_distance rect_distance c (rects_left rects.entry) }
{
    let mut rest = rects;
    let Some(first) = rest.next() else {
        return 0;
    };
    let mut best = rect_distance(c, first);
    for r in rest {
        best = best.min(rect_distance(c, r));
    }
    best
}
