// The child of a routing node that has a cell.
ghost use Rattle.walks.specs.Children.{Children, ChildIs};

use crate::walk::polygon_has;
use geometry::Cell;
use layout::children_at;

// A child: its place among the branches, the lower end of its subtree, its part.
#[derive(Clone, Copy, Debug, PartialEq, Eq)]
pub struct Child {
    pub at: usize,
    pub low: u32,
    pub part: u32,
}

// The first child of the node at part k whose polygon has the cell. Later ones are not asked: siblings share no cell.
// The node's subtree has the parts from lo on.
pub fn child_with(m: &[u32], lo: u32, k: u32, c: Cell) -> Option<Child>
    requires { Children m.now k }
    ensures { ChildIs m.now lo k c result }
{
    let mut low = lo;
    for (at, &part) in children_at(m, k).iter().enumerate() {
        if polygon_has(m, part, c) {
            return Some(Child { at, low, part });
        }
        low = part + 1;
    }
    None
}
