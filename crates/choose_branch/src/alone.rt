// The least extra area of the rectangles of a node's children, each taken as a polygon of one: the extra area by the
// whole polygon is not more. Where the search starts from it, most rectangles are given up soon.
ghost use Rattle.std.specs.Prelude.{◌≡◌, true};
ghost use Rattle.geometry.specs.Cells.{on_grid, all_valid};
ghost use Rattle.geometry.specs.Rects.{rects_left};
ghost use Rattle.choose_branch.specs.Branches.{polygons_in, Branches};
ghost use Rattle.choose_branch.specs.Least.{alone_in, alone_from, all_cells};

use area::{ALL_CELLS, extra_of_one};
use geometry::{Cell, Rects};
use layout::{children_at, polygon_rects};

// The known number, or the least of the rectangles if that is less.
fn alone_in(rects: Rects, c: Cell, known: u64) -> u64
    requires rects_value { all_valid (rects_left rects) ≡ true }
    requires c_value { on_grid c ≡ true }
    ensures { result ≡ alone_in c known (rects_left rects.entry) }
{
    let mut least = known;
    for r in rects {
        least = least.min(extra_of_one(r, c));
    }
    least
}

// The least of the children of the node at part k.
pub fn least_alone(m: &[u32], k: u32, c: Cell) -> u64
    requires branches { Branches m.now k }
    requires c_value { on_grid c ≡ true }
    ensures { result ≡ alone_from c all_cells (polygons_in m.now k) }
{
    let mut least = ALL_CELLS;
    for &part in children_at(m, k) {
        least = alone_in(polygon_rects(m, part), c, least);
    }
    least
}
