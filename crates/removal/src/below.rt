// Removal below a node: down to the leaf that holds the entry, and back up while nodes are emptied.
ghost use Rattle.removal.specs.Below.{TakesItem, EntryTaken, BranchTaken, Removable, RemovedBelow};

use crate::place::entry_place;
use geometry::Cell;
use layout::{node_at, part_at, set_free, set_node};
use walks::{Child, child_with};

// Takes the i-th entry out of the leaf at part k, which is set free if it was the last. Answers whether
// the leaf is left.
fn take_entry(m: &mut [u32], k: u32, i: usize) -> bool
    requires { TakesItem m.old k i }
    ensures { EntryTaken m.old k i m.new result }
{
    let leaf = node_at(m, k);
    if leaf.count == 1 {
        set_free(m, k);
        return false;
    }
    set_node(m, k, leaf.without_entry(i));
    true
}

// The same with the i-th branch of the routing node at part k. Two functions, since each promises what is taken by a
// definition of its own.
fn take_branch(m: &mut [u32], k: u32, i: usize) -> bool
    requires { TakesItem m.old k i }
    ensures { BranchTaken m.old k i m.new result }
{
    let node = node_at(m, k);
    if node.count == 1 {
        set_free(m, k);
        return false;
    }
    set_node(m, k, node.without_child(i));
    true
}

// Removes the entry of the cell from the subtree of the node at part k, which has the parts from lo on.
// Answers whether the node is left: one without entries is removed with all below it.
pub fn remove_below(m: &mut [u32], level: u32, lo: u32, k: u32, c: Cell) -> bool
    requires { Removable level m.old lo k c }
    ensures { RemovedBelow level m.old lo k c m.new result }
{
    if level == 0 {
        let i = entry_place(part_at(m, k), c);
        return take_entry(m, k, i);
    }
    let Some(Child { at, low, part }) = child_with(m, lo, k, c) else {
        // not reached: an entry of the cell is held below the node
        return true;
    };
    if remove_below(m, level - 1, low, part, c) {
        return true;
    }
    take_branch(m, k, at)
}
