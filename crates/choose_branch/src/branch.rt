// The children of a routing node in memory: the first whose polygon has a cell, and a child's polygon by value.
ghost use Rattle.std.specs.Prelude.{◌≡◌, position};
ghost use Rattle.geometry.specs.Numbers.{PolygonOf};
ghost use Rattle.memory.specs.Layout.{part, polygon_in};
ghost use Rattle.layout.specs.Nodes.{PolygonPart};
ghost use Rattle.walks.specs.Walks.{has_test};
ghost use Rattle.choose_branch.specs.Branches.{polygons_in, Branches};

use geometry::{Cell, Polygon};
use layout::{children_at, polygon_rects};
use walks::polygon_has;

// The polygon of the node at part k.
pub fn polygon_at(m: &[u32], k: u32) -> Polygon
    requires { PolygonPart m.now k }
    ensures { PolygonOf (polygon_in (part m.now k)) result }
{
    Polygon::of_rects(polygon_rects(m, k))
}

// The place of the first child of the node at part k whose polygon has the cell.
pub fn first_with(m: &[u32], k: u32, c: Cell) -> Option<usize>
    requires { Branches m.now k }
    ensures { result ≡ position (has_test c) (polygons_in m.now k) }
{
    for (place, &part) in children_at(m, k).iter().enumerate() {
        if polygon_has(m, part, c) {
            return Some(place);
        }
    }
    None
}
