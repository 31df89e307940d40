// The point query: the walk into the nodes whose polygon has the cell.
ghost use Rattle.std.specs.Prelude.{◌≡◌, Ok};
ghost use Rattle.plane.specs.Fanout.{fanout};
ghost use Rattle.memory.specs.Reading.{reading};
ghost use Rattle.memory.specs.TreeIn.{TreeIn, Known};
ghost use Rattle.layout.specs.Nodes.{NodePart};
ghost use Rattle.answers.specs.Answers.{point_read, point_answer};
ghost use Rattle.walks.specs.Walks.{has_test, cell_test, visits_below, held_below, leaf_entries, SoundWalk};
ghost use Rattle.queries.specs.Point.{found};

use answers::{PointFound, Refusal};
use geometry::Cell;
use layout::{entries, is_index_length, part_at};
use soundness::open_known;
use walks::{child_with, polygon_has};

// The entry of the cell in a leaf's part, the last node of a walk with so many visits.
fn point_in_leaf(p: &[u32], c: Cell, visits: u32) -> PointFound
    requires { NodePart p.now }
    ensures { result ≡ found (leaf_entries (cell_test c) p.now) visits }
{
    let held = entries(p).find(|e| e.cell.x == c.x && e.cell.y == c.y);
    PointFound {
        tag: held.map(|e| e.tag),
        visits,
    }
}

// The walk below the node at part k, whose subtree has the parts from lo on: one path, down to a leaf or to a node
// without a child that has the cell.
pub fn point_below(m: &[u32], level: u32, lo: u32, k: u32, c: Cell) -> PointFound
    requires { SoundWalk level m.now lo k }
    ensures { result ≡ found (held_below c level m.now lo k)
        (visits_below (has_test c) level m.now lo k) }
{
    let mut from = lo;
    let mut at = k;
    for depth in 0..level {
        let Some(child) = child_with(m, from, at, c) else {
            return PointFound {
                tag: None,
                visits: depth + 1,
            };
        };
        from = child.low;
        at = child.part;
    }
    point_in_leaf(part_at(m, at), c, level + 1)
}

// The point query of the tree in a memory: its root is visited too, if its polygon has the cell.
fn point_in_tree(m: &[u32], level: u32, root: u32, c: Cell) -> PointFound
    requires { TreeIn m.now level root }
    ensures { Ok result ≡ point_read c (reading fanout m.now) }
{
    if !polygon_has(m, root, c) {
        return PointFound {
            tag: None,
            visits: 0,
        };
    }
    point_below(m, level, 0, root, c)
}

// Whether an entry of the cell is held, with its tag, and the nodes whose polygon has the cell.
pub fn point(m: &[u32], c: Cell) -> Result<PointFound, Refusal>
    ensures { result ≡ point_answer m.now c }
{
    point_known(m, false, c)
}

// The same; a memory that is known to read as an index is not tested.
#[tactic(auto, using(crate::proofs::PointReturns::without_tree), unfolding(answers::specs::Answers::point_answer))]
pub fn point_known(m: &[u32], known: bool, c: Cell) -> Result<PointFound, Refusal>
    requires { Known m.now known }
    ensures { result ≡ point_answer m.now c }
{
    if !is_index_length(m) {
        return Err(Refusal::WrongLength);
    }
    if !c.on_grid() {
        return Err(Refusal::Invalid);
    }
    match open_known(m, known)? {
        None => Ok(PointFound {
            tag: None,
            visits: 0,
        }),
        Some(root) => Ok(point_in_tree(m, root.level, root.part, c)),
    }
}
