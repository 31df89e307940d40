// The extent of entries: the smallest rectangle with their cells, None of no entries.
ghost use Rattle.std.specs.Prelude.{◌≡◌, true};
ghost use Rattle.geometry.specs.Cells.{on_grid};
ghost use Rattle.walks.specs.Walks.{leaf_entries};
ghost use Rattle.split_line.specs.Sides.{on_test};
ghost use Rattle.split_line.specs.GroupExtent.{group_extent, extent_add, extent_join, kept_under, LeafExtent, NodeExtent};

use crate::sides::on_all;
use geometry::{Cell, Rect, Side};
use layout::{children_at, entries, part_at};

// The extent with one more cell.
#[tactic(auto, unfolding(crate::specs::GroupExtent::extent_add))]
pub fn grow(extent: Option<Rect>, c: Cell) -> Rect
    requires { on_grid c ≡ true }
    ensures { result ≡ extent_add extent c }
{
    match extent {
        Some(rect) => rect.grow(c),
        None => Rect {
            llx: c.x,
            lly: c.y,
            urx: c.x + 1,
            ury: c.y + 1,
        },
    }
}

// The extent of two groups of entries together.
#[tactic(auto, unfolding(crate::specs::GroupExtent::extent_join))]
fn union(extent: Option<Rect>, other: Option<Rect>) -> Option<Rect>
    ensures { result ≡ extent_join extent other }
{
    match (extent, other) {
        (Some(a), Some(b)) => Some(a.union(b)),
        (None, _) => other,
        (_, None) => extent,
    }
}

// The extent of the entries of a leaf's part that are on every side.
fn extent_in_leaf(p: &[u32], sides: &[Side]) -> Option<Rect>
    requires { LeafExtent p.now sides.now }
    ensures { result ≡ group_extent (leaf_entries (on_test sides.now) p.now) }
{
    let mut extent = None;
    for e in entries(p) {
        if on_all(sides, e.cell) {
            extent = Some(grow(extent, e.cell));
        }
    }
    extent
}

// The extent of the entries below the node at part k that are on every side; the node's subtree has the parts from lo
// on.
pub fn extent_under(m: &[u32], level: u32, lo: u32, k: u32, sides: &[Side]) -> Option<Rect>
    requires { NodeExtent level m.now lo k sides.now }
    ensures { result ≡ group_extent (kept_under sides.now level m.now lo k) }
{
    if level == 0 {
        return extent_in_leaf(part_at(m, k), sides);
    }
    let mut extent = None;
    let mut low = lo;
    for &part in children_at(m, k) {
        extent = union(extent, extent_under(m, level - 1, low, part, sides));
        low = part + 1;
    }
    extent
}
