// A node written to its part, and the branches of a routing node as they are written one after another.
ghost use Rattle.std.specs.Prelude.{◌≡◌, ◌≤◌, ◌<◌};
ghost use Rattle.geometry.specs.Numbers.{rects_of};
ghost use Rattle.layout.specs.Nodes.{NodePart};
ghost use Rattle.layout.specs.Parts.{PartRoom, PartPut};
ghost use Rattle.tree_after.specs.Rows.{kept, NodeWritten, NodeRoom, no_branches, with_branch};
ghost use Rattle.tree_after.specs.Parts.{remaining_part};

use crate::sides::clipped;
use geometry::{Polygon, Side};
use layout::{Node, polygon_in, put_node};

// Whether a node with so many items under the sides is written: without items it is dropped, unless there are no sides.
pub fn is_kept(sides: &[Side], count: u32) -> bool
    ensures { result ≡ kept sides.now count }
{
    count != 0 || sides.len() == 0
}

// Writes a node with its polygon clipped to the sides to the next part; answers the next free part. Nothing is written
// for a node that is dropped.
pub fn write_node(p: Polygon, node: Node, sides: &[Side], work: &mut [u32], next: u32) -> u32
    requires { NodeRoom sides.now node work.old next }
    ensures { NodeWritten (rects_of p) node sides.now work.old next work.new result }
{
    if !is_kept(sides, node.count) {
        return next;
    }
    let q = clipped(p, sides);
    put_node(work, next, q, node);
    next + 1
}

// The next free part, and a node whose children are the branches that were written.
#[derive(Clone, Copy)]
pub struct Branches {
    pub next: u32,
    pub node: Node,
}

impl Branches {
    // No branch so far.
    pub fn none(next: u32) -> Branches
        ensures { result ≡ no_branches next }
    {
        let node = Node::empty();
        Branches { next, node }
    }

    // With the top node of the parts that were written up to the part after, if any were: it is the last of them.
    pub fn with_branch(self, after: u32) -> Branches
        requires next_le_after { self.next ≤ after }
        requires count_bound { self.node.count < 9 }
        ensures { result ≡ with_branch self after }
    {
        if after == self.next {
            return self;
        }
        let before = self.node;
        let node = before.with_child(after - 1);
        Branches { next: after, node }
    }
}

// Writes what remains of a part's node under the sides to the part next of the work area: its polygon clipped, and the
// node with the items that remain.
pub fn put_remaining(p: &[u32], remaining: Node, sides: &[Side], work: &mut [u32], next: u32)
    requires node_part { NodePart p.now }
    requires part_room { PartRoom work.old next }
    ensures { PartPut work.old next (remaining_part sides.now p.now remaining)
        work.new }
{
    let polygon = clipped(Polygon::of_rects(polygon_in(p)), sides);
    put_node(work, next, polygon, remaining);
}
