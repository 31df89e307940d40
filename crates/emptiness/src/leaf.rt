// The entries of a leaf.
ghost use Rattle.std.specs.Prelude.{◌≡◌};
ghost use Rattle.tree.specs.Lists.{not_empty};
ghost use Rattle.layout.specs.Nodes.{NodePart};
ghost use Rattle.walks.specs.Walks.{inside_test, leaf_entries};

use geometry::Rect;
use layout::entries;

// Whether an entry of a leaf's part is in the window. It looks at the entries up to the first that is.
pub fn match_in_leaf(p: &[u32], w: Rect) -> bool
    requires { NodePart p.now }
    ensures { result ≡ not_empty (leaf_entries (inside_test w) p.now) }
{
    entries(p).any(|e| w.has_cell(e.cell))
}
