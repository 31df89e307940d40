// What is off the path, written under sides: whole subtrees, nodes without entries left out.
ghost use Rattle.std.specs.Prelude.{◌≤◌, suc, ◌+◌, [], length};
ghost use Rattle.layout.specs.Nodes.{NodePart, count_at};
ghost use Rattle.walks.specs.Walks.{Walkable};
ghost use Rattle.tree_after.specs.Writes.{Writes, Room, deep_at};
ghost use Rattle.tree_after.specs.Leaves.{leaf_under};
ghost use Rattle.tree_after.specs.Rows.{Grows, range_under};

use crate::leaf::gather;
use crate::node::{Branches, put_remaining};
use geometry::Side;
use layout::{Node, add_child, children_at, copy_node, copy_part, part_at};

// Copies the subtree at part k, whose parts are those from lo on, into the parts of the work area from next on;
// answers the next free part. Only the numbers of a node's children change: they are the parts that the children were
// copied to.
pub fn copy_below(m: &[u32], level: u32, lo: u32, k: u32, work: &mut [u32], next: u32) -> u32
    requires walkable { Walkable level m.now lo k }
    requires room { Room level work.old next (deep_at level m.now lo k []) }
    ensures { Writes level work.old next (deep_at level m.now lo k [])
        work.new result }
{
    if level == 0 {
        copy_part(part_at(m, k), work, next);
        return next + 1;
    }
    let mut copy = Node::empty();
    let mut free = next;
    let mut low = lo;
    for &part in children_at(m, k) {
        free = copy_below(m, level - 1, low, part, work, free);
        let count = copy.count;
        add_child(&mut copy.items, count, free - 1);
        copy.count = count + 1;
        low = part + 1;
    }
    copy_node(part_at(m, k), copy, work, free);
    free + 1
}

// Writes what remains of a leaf under the sides, of which there are some; answers the next free part.
fn write_leaf(p: &[u32], sides: &[Side], work: &mut [u32], next: u32) -> u32
    requires node_part { NodePart p.now }
    requires in_bounds { 1 ≤ length sides.now }
    requires room { Room 0 work.old next (leaf_under sides.now p.now) }
    ensures { Writes 0 work.old next (leaf_under sides.now p.now)
        work.new result }
{
    let remaining = gather(p, sides);
    if remaining.count == 0 {
        return next;
    }
    put_remaining(p, remaining, sides, work, next);
    next + 1
}

// Writes what remains of the subtree at part k under the sides; answers the next free part.
pub fn write_below(
    m: &[u32],
    level: u32,
    lo: u32,
    k: u32,
    sides: &[Side],
    work: &mut [u32],
    next: u32,
) -> u32
    requires walkable { Walkable level m.now lo k }
    requires room { Room level work.old next (deep_at level m.now lo k sides.now) }
    ensures { Writes level work.old next (deep_at level m.now lo k sides.now)
        work.new result }
{
    if sides.len() == 0 {
        return copy_below(m, level, lo, k, work, next);
    }
    if level == 0 {
        return write_leaf(part_at(m, k), sides, work, next);
    }
    let mut remaining = Node::empty();
    let mut free = next;
    let mut low = lo;
    for &part in children_at(m, k) {
        let after = write_below(m, level - 1, low, part, sides, work, free);
        if after != free {
            let count = remaining.count;
            add_child(&mut remaining.items, count, after - 1);
            remaining.count = count + 1;
        }
        free = after;
        low = part + 1;
    }
    if remaining.count == 0 {
        return free;
    }
    put_remaining(part_at(m, k), remaining, sides, work, free);
    free + 1
}

// Writes what remains under the sides of the branches of the node at part k, from one place up to another; level is
// that of the branches.
pub fn write_branches(
    m: &[u32],
    level: u32,
    k: u32,
    from: usize,
    to: usize,
    sides: &[Side],
    work: &mut [u32],
    branches: Branches,
) -> Branches
    requires walkable { Walkable (suc level) m.now 0 k }
    requires from_le_to { from ≤ to }
    requires to_bound { to ≤ count_at m.now k }
    requires to_bound_2 { branches.node.count + to ≤ 9 + from }
    requires room { Room level work.old branches.next (range_under level m.now k from to sides.now) }
    ensures { Grows level work.old branches
        (range_under level m.now k from to sides.now) work.new result }
{
    let mut out = branches;
    for &part in &children_at(m, k)[from..to] {
        let next = out.next;
        let after = write_below(m, level, 0, part, sides, work, next);
        out = out.with_branch(after);
    }
    out
}
