// The line of a routing node whose branch at a place was split.
ghost use Rattle.std.specs.Prelude.{◌≡◌, true, ◌++◌};
ghost use Rattle.geometry.specs.Cells.{on_grid};
ghost use Rattle.walks.specs.Count.{entries_at};
ghost use Rattle.split_line.specs.Sides.{side_of};
ghost use Rattle.split_line.specs.GroupExtent.{extent_rect_of, rect_or_first};
ghost use Rattle.split_line.specs.ExtentRow.{extents_of};
ghost use Rattle.split_line.specs.Groups.{NodeHere, NodeLineIs};
ghost use Rattle.split_line.specs.GroupExtents.{GridNode, side_extent, branch_extents, BranchHere, GroupExtents};

use crate::candidates::best_line;
use crate::extent::{extent_under, grow};
use crate::extents::Extents;
use crate::sides::is_on;
use geometry::{Cell, Line, Rect, Side};
use layout::children_at;

// The rectangle of an extent; of no entries that of the cell (0, 0), at which no rule looks.
#[tactic(auto, unfolding(crate::specs::GroupExtent::rect_or_first))]
fn rect_or_first(extent: Option<Rect>) -> Rect
    ensures { result ≡ rect_or_first extent }
{
    extent.unwrap_or(Rect {
        llx: 0,
        lly: 0,
        urx: 1,
        ury: 1,
    })
}

// The extents of the entries below the node at part k.
fn whole_extent(m: &[u32], level: u32, lo: u32, k: u32) -> Rect
    requires { GridNode level m.now lo k }
    ensures { result ≡ extent_rect_of (entries_at level m.now lo k) }
{
    let no_sides: [Side; 0] = [];
    rect_or_first(extent_under(m, level, lo, k, &no_sides))
}

// The extents of those of them, with one at the cell c, that are on the side.
fn side_extent(m: &[u32], level: u32, lo: u32, k: u32, side: Side, c: Cell) -> Rect
    requires grid_node { GridNode level m.now lo k }
    requires c_value { on_grid c ≡ true }
    ensures { result ≡ side_extent level m.now lo k (side_of side) c }
{
    let extent = extent_under(m, level, lo, k, &[side]);
    if is_on(side, c) {
        grow(extent, c)
    } else {
        rect_or_first(extent)
    }
}

// Writes the extents of the branch at part k behind those in the list: of both its halves where it was split at the
// line `below`. That line is the same for all branches of a node, so it is no value of `halved`.
fn put_branch(
    m: &[u32],
    level: u32,
    lo: u32,
    k: u32,
    halved: bool,
    below: Line,
    c: Cell,
    list: &mut Extents,
)
    requires { BranchHere level m.now lo k halved below c (extents_of list.old) }
    ensures { extents_of list.new
        ≡ extents_of list.old ++ branch_extents level m.now lo k halved below c }
{
    if halved {
        list.push(side_extent(m, level, lo, k, Side::Left(below), c));
        list.push(side_extent(m, level, lo, k, Side::Right(below), c));
    } else {
        list.push(whole_extent(m, level, lo, k));
    }
}

// The extents of the groups of the node at part k.
fn group_extents(
    m: &[u32],
    level: u32,
    lo: u32,
    k: u32,
    place: u32,
    below: Line,
    c: Cell,
) -> Extents
    requires { NodeHere m.now level lo k place c }
    ensures { GroupExtents m.now level lo k place below c (extents_of result) }
{
    let mut list = Extents::new();
    let mut low = lo;
    for (i, &part) in children_at(m, k).iter().enumerate() {
        let halved = i == place as usize;
        put_branch(m, level - 1, low, part, halved, below, c, &mut list);
        low = part + 1;
    }
    list
}

// The line that splits the node at part k: its branch at the place was split at the line `below`, and holds the new
// cell.
pub fn node_line(m: &[u32], level: u32, lo: u32, k: u32, place: u32, below: Line, c: Cell) -> Line
    requires { NodeHere m.now level lo k place c }
    ensures { NodeLineIs m.now level lo k place below c result }
{
    best_line(group_extents(m, level, lo, k, place, below, c).as_slice())
}
