// Whether a cell is held: refusals 5 and 6.
ghost use Rattle.std.specs.Prelude.{◌≡◌};
ghost use Rattle.plane.specs.Fanout.{fanout};
ghost use Rattle.memory.specs.Reading.{reading};
ghost use Rattle.memory.specs.TreeIn.{TreeIn};
ghost use Rattle.queries.specs.Held.{held_read};

use crate::point_query::point_below;
use geometry::Cell;
use walks::polygon_has;

// Whether the tree in a memory holds an entry of the cell.
pub fn is_held(m: &[u32], level: u32, root: u32, c: Cell) -> bool
    requires { TreeIn m.now level root }
    ensures { result ≡ held_read c (reading fanout m.now) }
{
    polygon_has(m, root, c) && point_below(m, level, 0, root, c).tag.is_some()
}
