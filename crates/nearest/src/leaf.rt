// The entries of a leaf.
ghost use Rattle.std.specs.Prelude.{◌≡◌, true};
ghost use Rattle.geometry.specs.Cells.{on_grid};
ghost use Rattle.tree.specs.Lists.{All};
ghost use Rattle.memory.specs.Layout.{item_count, entries_in};
ghost use Rattle.layout.specs.Nodes.{NodePart};
ghost use Rattle.nearest.specs.Near.{near_by, best_of, nearest_among, GoodNear};

use crate::near::Near;
use geometry::Cell;
use layout::entries;

// The nearest so far with the entries of a leaf's part.
pub fn nearest_in_leaf(p: &[u32], c: Cell, met: Near) -> Near
    requires node_part { NodePart p.now }
    requires all { All (λ e. on_grid e.cell ≡ true) (entries_in p.now (item_count p.now)) }
    requires c_value { on_grid c ≡ true }
    requires good_near { GoodNear c met }
    ensures { result ≡ near_by c (nearest_among c (best_of met)
        (entries_in p.now (item_count p.now))) met.visits }
{
    let mut best = met;
    for e in entries(p) {
        best = best.with_entry(c, e);
    }
    best
}
