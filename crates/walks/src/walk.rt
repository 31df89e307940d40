// What walks ask of a node's polygon.
ghost use Rattle.std.specs.Prelude.{◌≡◌};
ghost use Rattle.memory.specs.Layout.{part, polygon_in};
ghost use Rattle.layout.specs.Nodes.{PolygonPart};
ghost use Rattle.walks.specs.Walks.{has_test, meets_test};

use geometry::{Cell, Rect, any_shares, contains};
use layout::polygon_rects;

// Whether the polygon of the node at part k has the cell.
pub fn polygon_has(m: &[u32], k: u32, c: Cell) -> bool
    requires { PolygonPart m.now k }
    ensures { result ≡ has_test c (polygon_in (part m.now k)) }
{
    contains(polygon_rects(m, k), c).has
}

// Whether the polygon of the node at part k shares a cell with w.
pub fn polygon_meets(m: &[u32], k: u32, w: Rect) -> bool
    requires { PolygonPart m.now k }
    ensures { result ≡ meets_test w (polygon_in (part m.now k)) }
{
    any_shares(polygon_rects(m, k), w)
}
