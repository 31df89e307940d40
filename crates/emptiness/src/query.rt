// The emptiness query on lent memory.
ghost use Rattle.std.specs.Prelude.{◌≡◌, Ok};
ghost use Rattle.plane.specs.Fanout.{fanout};
ghost use Rattle.memory.specs.Reading.{reading};
ghost use Rattle.memory.specs.TreeIn.{TreeIn, Known};
ghost use Rattle.answers.specs.Answers.{empty_read, empty_answer};

use crate::below::match_below;
use answers::{EmptyFound, Refusal};
use geometry::Rect;
use layout::is_index_length;
use soundness::open_known;
use walks::polygon_meets;

// What is found where no node is entered.
const NOTHING_ENTERED: EmptyFound = EmptyFound {
    empty: true,
    visits: 0,
};

// The emptiness query of the tree in a memory: its root is entered if its polygon shares a cell with the window.
fn empty_in_tree(m: &[u32], level: u32, root: u32, w: Rect) -> EmptyFound
    requires { TreeIn m.now level root }
    ensures { Ok result ≡ empty_read w (reading fanout m.now) }
{
    if polygon_meets(m, root, w) {
        match_below(m, level, 0, root, w, 0)
    } else {
        NOTHING_ENTERED
    }
}

// Whether no entry is in the window, and the nodes that the walk enters up to the first entry in it.
pub fn is_empty(m: &[u32], w: Rect) -> Result<EmptyFound, Refusal>
    ensures { result ≡ empty_answer m.now w }
{
    is_empty_known(m, false, w)
}

// The same; a memory that is known to read as an index is not tested.
#[tactic(auto, unfolding(answers::specs::Answers::empty_answer, answers::specs::Answers::empty_read))]
pub fn is_empty_known(m: &[u32], known: bool, w: Rect) -> Result<EmptyFound, Refusal>
    requires { Known m.now known }
    ensures { result ≡ empty_answer m.now w }
{
    if !is_index_length(m) {
        return Err(Refusal::WrongLength);
    }
    if !w.is_valid() {
        return Err(Refusal::Invalid);
    }
    match open_known(m, known)? {
        None => Ok(NOTHING_ENTERED),
        Some(root) => Ok(empty_in_tree(m, root.level, root.part, w)),
    }
}
