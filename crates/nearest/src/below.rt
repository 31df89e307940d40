// The walk for the nearest entry: it passes over nodes that are too far.
ghost use Rattle.std.specs.Prelude.{◌≡◌, true, ◌+◌, ◌≤◌};
ghost use Rattle.polygons.specs.Rules.{least_distance};
ghost use Rattle.geometry.specs.Cells.{on_grid};
ghost use Rattle.distance.specs.Distance.{rect_distance};
ghost use Rattle.memory.specs.Layout.{part, polygon_in};
ghost use Rattle.layout.specs.Nodes.{GoodPolygonPart};
ghost use Rattle.walks.specs.Walks.{any_polygon, visits_below};
ghost use Rattle.nearest.specs.Near.{GoodNear};
ghost use Rattle.nearest.specs.Below.{near_below, NearWalk};

use crate::leaf::nearest_in_leaf;
use crate::near::Near;
use distance::least_distance;
use geometry::Cell;
use layout::{children_at, part_at, polygon_rects};

// The least squared distance from the cell to a cell of the polygon at part k.
fn polygon_distance(m: &[u32], k: u32, c: Cell) -> u64
    requires good_polygon_part { GoodPolygonPart m.now k }
    requires c_value { on_grid c ≡ true }
    ensures { result ≡ least_distance rect_distance c (polygon_in (part m.now k)) }
{
    least_distance(polygon_rects(m, k), c)
}

// The walk below the node at part k, which it enters, from what was met before. It enters a child if nothing was
// met yet, or if the child's polygon is at most as far as the nearest entry so far.
pub fn nearest_below(m: &[u32], level: u32, lo: u32, k: u32, c: Cell, met: Near) -> Near
    requires near_walk { NearWalk level m.now lo k }
    requires c_value { on_grid c ≡ true }
    requires good_near { GoodNear c met }
    requires k_bound { met.visits + visits_below any_polygon level m.now lo k ≤ 256 }
    ensures { result ≡ near_below c level m.now lo k met }
{
    let entered = met.entered();
    if level == 0 {
        return nearest_in_leaf(part_at(m, k), c, entered);
    }
    let mut best = entered;
    let mut low = lo;
    for &part in children_at(m, k) {
        if best.enters(polygon_distance(m, part, c)) {
            best = nearest_below(m, level - 1, low, part, c, best);
        }
        low = part + 1;
    }
    best
}
