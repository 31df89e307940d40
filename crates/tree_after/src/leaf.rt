// A leaf's entries under sides.
ghost use Rattle.std.specs.Prelude.{◌≡◌, ◌≤◌, [], ◌∷◌, ◌++◌};
ghost use Rattle.tree.specs.Lists.{not_empty, keep};
ghost use Rattle.memory.specs.Layout.{entries_in, item_count};
ghost use Rattle.layout.specs.Loaded.{leaf_of};
ghost use Rattle.layout.specs.Nodes.{NodePart};
ghost use Rattle.layout.specs.Entries.{tree_entry};
ghost use Rattle.split_line.specs.Sides.{on_test};
ghost use Rattle.tree_after.specs.Leaves.{leaf_remaining};

use geometry::Side;
use layout::{Entry, Node, add_entry, entries};
use split_line::on_all;

// Whether an entry of a leaf's part is on every side.
pub fn any_remaining(p: &[u32], sides: &[Side]) -> bool
    requires { NodePart p.now }
    ensures { result ≡ not_empty (leaf_remaining sides.now p.now) }
{
    entries(p).any(|e| on_all(sides, e.cell))
}

// The leaf with those entries of a leaf's part that are on every side.
pub fn gather(p: &[u32], sides: &[Side]) -> Node
    requires { NodePart p.now }
    ensures value { result ≡ leaf_of (leaf_remaining sides.now p.now) }
    ensures count_bound { result.count ≤ 8 }
{
    let mut remaining = Node::empty();
    for e in entries(p).filter(|e| on_all(sides, e.cell)) {
        let count = remaining.count;
        add_entry(&mut remaining.items, count, e);
        remaining.count = count + 1;
    }
    remaining
}

// The leaf with the entries of a leaf's part and a new one behind them, those on every side.
pub fn gather_with(p: &[u32], sides: &[Side], e: Entry) -> Node
    requires { NodePart p.now }
    ensures { result ≡ leaf_of (keep (on_test sides.now)
        (entries_in p.now (item_count p.now) ++ (tree_entry e ∷ []))) }
{
    let remaining = gather(p, sides);
    if on_all(sides, e.cell) {
        return remaining.with_entry(e);
    }
    remaining
}
