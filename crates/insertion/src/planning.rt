// Step 4, planned: which nodes on the path are split, and at which lines.
ghost use Rattle.tree_after.specs.Path.{PathFrom};
ghost use Rattle.insertion.specs.Planning.{Plannable, FullLevels, Full, LineOfLevel, PlanMade};

use geometry::{Cell, Line};
use layout::{FANOUT, count_at, part_at};
use path::Level;
use split_line::{leaf_line, node_line};

// The line of the node on the path at a level, which gets one item too many.
fn line_at(m: &[u32], path: &[Level], n: u32, level: u32, c: Cell) -> Line
    requires { Full n level path.now m.now c }
    ensures { LineOfLevel n path.now m.now c result }
{
    let k = path[n as usize].part;
    if n == 0 {
        return leaf_line(part_at(m, k), c);
    }
    let place = path[n as usize].place;
    // the node below is split
    let below = path[(n - 1) as usize].line.unwrap();
    node_line(m, n, 0, k, place, below, c)
}

// How many nodes on the path are split. From the leaf up, each that has eight items gets one more; a node with fewer
// has room for the new item, so none above it gets one.
#[tactic(auto, using(crate::proofs::PlanBounds::count_level, crate::proofs::PlanBounds::levels_fit))]
pub fn split_count(m: &[u32], path: &[Level], level: u32) -> u32
    requires { PathFrom level path.now m.now }
    ensures { FullLevels level path.now m.now result }
{
    let levels = level + 1;
    for n in 0..levels {
        let k = path[n as usize].part;
        if count_at(m, k) < FANOUT {
            return n;
        }
    }
    levels
}

// Writes the lines of the nodes that are split into the path, from the leaf up.
pub fn plan(m: &[u32], level: u32, splits: u32, c: Cell, path: &mut [Level])
    requires plannable { Plannable level path.old m.now c }
    requires full_levels { FullLevels level path.old m.now splits }
    ensures { PlanMade level path.old m.now c path.new }
{
    for n in 0..splits {
        let line = line_at(m, path, n, level, c);
        path[n as usize].line = Some(line);
    }
}
