// Which branch of a routing node insertion goes to, and the polygon that the branch gets.
ghost use Rattle.std.specs.Prelude.{◌≡◌, true, None, IfOk, position};
ghost use Rattle.geometry.specs.Cells.{on_grid};
ghost use Rattle.geometry.specs.Numbers.{rects_of};
ghost use Rattle.walks.specs.Walks.{has_test};
ghost use Rattle.choose_branch.specs.Branches.{polygons_in, Branches};
ghost use Rattle.choose_branch.specs.Choose.{Routing, ChoiceIs};
ghost use Rattle.choose_branch.specs.Removed.{RemovedAt};

use crate::branch::{first_with, polygon_at};
use crate::least::find_least;
use crate::pieces::put_grown;
use geometry::{Cell, Polygon, Rects, TooMany, WORK_NUMBERS};
use layout::child_at;

// The branch that insertion goes to, by its place in the node's row, its polygon from now on, and how many cells
// siblings removed.
#[derive(Clone, Copy)]
pub struct Choice {
    pub place: usize,
    pub polygon: Polygon,
    pub removed: u64,
}

// The branch of least extra area, where none has the cell, with its polygon grown.
fn choose_least(m: &[u32], k: u32, p: Polygon, c: Cell) -> Result<Choice, TooMany>
    requires branches { Branches m.now k }
    requires none_has { position (has_test c) (polygons_in m.now k) ≡ None }
    requires c_value { on_grid c ≡ true }
    ensures choice_is { ChoiceIs m.now k (rects_of p) c result }
    ensures removed_at { IfOk result (λ r. RemovedAt m.now k c r.removed) }
{
    let found = find_least(m, k, c);
    let mut list = [0u32; WORK_NUMBERS];
    let mut spare = [0u32; WORK_NUMBERS];
    let grown = put_grown(m, k, found, p, c, &mut list, &mut spare)?;
    Ok(Choice {
        place: found.branch,
        polygon: Polygon::of_rects(Rects::new(&list, grown.rects)),
        removed: grown.removed,
    })
}

// The branch of the routing node at part k for the cell: the first that has it, or the one of least extra area. p is
// the node's own polygon, as grown in this insertion.
pub fn choose(m: &[u32], k: u32, p: Polygon, c: Cell) -> Result<Choice, TooMany>
    requires routing { Routing m.now k }
    requires c_value { on_grid c ≡ true }
    ensures choice_is { ChoiceIs m.now k (rects_of p) c result }
    ensures removed_at { IfOk result (λ r. RemovedAt m.now k c r.removed) }
{
    let Some(place) = first_with(m, k, c) else {
        return choose_least(m, k, p, c);
    };
    let part = child_at(m, k, place);
    Ok(Choice {
        place,
        polygon: polygon_at(m, part),
        removed: 0,
    })
}
