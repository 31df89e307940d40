// Polygons and lists of sides.
ghost use Rattle.geometry.specs.Numbers.{rects_of, PolygonOf};
ghost use Rattle.tree.specs.Plan.{clips};
ghost use Rattle.plane.specs.Fanout.{index_space};
ghost use Rattle.split_line.specs.Sides.{sides_of};

use geometry::{Line, Polygon, Side};
use refinement::refine_polygon;

// The polygon clipped to each side, one after another, and refined each time.
pub fn clipped(p: Polygon, sides: &[Side]) -> Polygon
    ensures { PolygonOf (clips index_space (sides_of sides.now) (rects_of p)) result }
{
    let mut q = p;
    for side in sides {
        q = refine_polygon(q.clip(*side));
    }
    q
}

// Room for the sides that apply to a node: one for the line of each of 256 levels, and one place in front.
pub const MOST_SIDES: usize = 257;

// What stands in a list of sides where there is none yet.
pub const NO_SIDE: Side = Side::Left(Line::AtX(0));
