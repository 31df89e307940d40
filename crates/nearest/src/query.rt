// The nearest query on lent memory.
ghost use Rattle.std.specs.Prelude.{◌≡◌, true};
ghost use Rattle.geometry.specs.Cells.{on_grid};
ghost use Rattle.plane.specs.Fanout.{fanout};
ghost use Rattle.memory.specs.Reading.{reading};
ghost use Rattle.memory.specs.TreeIn.{TreeIn, Known};
ghost use Rattle.answers.specs.Answers.{nearest_read, nearest_answer};

use crate::below::nearest_below;
use crate::near::Near;
use answers::{NearestFound, Refusal};
use geometry::Cell;
use layout::{Entry, is_index_length};
use soundness::open_known;

// The nearest entry of the tree in a memory.
fn nearest_in_tree(m: &[u32], level: u32, root: u32, c: Cell) -> Result<NearestFound, Refusal>
    requires tree_in { TreeIn m.now level root }
    requires c_value { on_grid c ≡ true }
    ensures { result ≡ nearest_read c (reading fanout m.now) }
{
    let near = nearest_below(m, level, 0, root, c, Near::nothing());
    let Some(best) = near.best else {
        // not reached: a sound tree holds an entry
        return Err(Refusal::NothingHeld);
    };
    let Entry { cell, tag } = best.entry;
    Ok(NearestFound {
        x: cell.x,
        y: cell.y,
        tag,
        distance: best.distance,
        visits: near.visits,
    })
}

// The entry nearest the cell, its squared distance, and the nodes that the walk enters.
pub fn nearest(m: &[u32], c: Cell) -> Result<NearestFound, Refusal>
    ensures { result ≡ nearest_answer m.now c }
{
    nearest_known(m, false, c)
}

// The same; a memory that is known to read as an index is not tested.
#[tactic(auto, using(crate::proofs::CallReturns::without_tree), unfolding(answers::specs::Answers::nearest_answer))]
pub fn nearest_known(m: &[u32], known: bool, c: Cell) -> Result<NearestFound, Refusal>
    requires { Known m.now known }
    ensures { result ≡ nearest_answer m.now c }
{
    if !is_index_length(m) {
        return Err(Refusal::WrongLength);
    }
    if !c.on_grid() {
        return Err(Refusal::Invalid);
    }
    match open_known(m, known)? {
        None => Err(Refusal::NothingHeld),
        Some(root) => nearest_in_tree(m, root.level, root.part, c),
    }
}
