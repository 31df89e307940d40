// The walk for the first entry in a window.
ghost use Rattle.std.specs.Prelude.{◌≡◌, ◌+◌, ◌≤◌};
ghost use Rattle.walks.specs.Walks.{meets_test, visits_below, Walkable};
ghost use Rattle.emptiness.specs.Below.{to_match_below, found_of};

use crate::leaf::match_in_leaf;
use answers::EmptyFound;
use geometry::Rect;
use layout::{children_at, part_at};
use walks::polygon_meets;

// The walk below the node at part k, which it enters after `visits` others. It enters the children whose polygon
// shares a cell with the window, one after another, and stops at the first entry in the window.
pub fn match_below(m: &[u32], level: u32, lo: u32, k: u32, w: Rect, visits: u32) -> EmptyFound
    requires walkable { Walkable level m.now lo k }
    requires k_bound { visits + visits_below (meets_test w) level m.now lo k ≤ 256 }
    ensures { result ≡ found_of (to_match_below w level m.now lo k visits) }
{
    let mut so_far = visits + 1;
    if level == 0 {
        return EmptyFound {
            empty: !match_in_leaf(part_at(m, k), w),
            visits: so_far,
        };
    }
    let mut low = lo;
    for &part in children_at(m, k) {
        if polygon_meets(m, part, w) {
            let below = match_below(m, level - 1, low, part, w, so_far);
            if !below.empty {
                return below;
            }
            so_far = below.visits;
        }
        low = part + 1;
    }
    EmptyFound {
        empty: true,
        visits: so_far,
    }
}
