// The removal of an entry.
ghost use Rattle.memory.specs.TreeIn.{TreeIn, Known};
ghost use Rattle.answers.specs.Changes.{RemoveCall};
ghost use Rattle.removal.specs.Tree.{RemoveDone};

use crate::below::remove_below;
use answers::Refusal;
use geometry::Cell;
use layout::{is_index_length, no_tree};
use queries::is_held;
use soundness::open_known;
use walks::entries_below;

// Removal from the tree in a memory. 'The last removal leaves all zeros.'
fn remove_in_tree(m: &mut [u32], level: u32, root: u32, c: Cell) -> Result<u32, Refusal>
    requires { TreeIn m.old level root }
    ensures { RemoveDone m.old c m.new result }
{
    if !is_held(m, level, root, c) {
        return Err(Refusal::NotHeld);
    }
    let entries = entries_below(m, level, 0, root) - 1;
    if remove_below(m, level, 0, root, c) {
        return Ok(entries);
    }
    no_tree(m);
    Ok(entries)
}

// Removes the entry of the cell: closes the gap, and removes an emptied leaf and emptied nodes above.
// Polygons keep their size. Answers the entries held after the call; a refused call leaves every number.
pub fn remove(m: &mut [u32], c: Cell) -> Result<u32, Refusal>
    ensures { RemoveCall m.old c m.new result }
{
    remove_known(m, false, c)
}

// The same; a memory that is known to read as an index is not tested.
pub fn remove_known(m: &mut [u32], known: bool, c: Cell) -> Result<u32, Refusal>
    requires { Known m.old known }
    ensures { RemoveCall m.old c m.new result }
{
    if !is_index_length(m) {
        return Err(Refusal::WrongLength);
    }
    if !c.on_grid() {
        return Err(Refusal::Invalid);
    }
    match open_known(m, known)? {
        None => Err(Refusal::NotHeld),
        Some(root) => remove_in_tree(m, root.level, root.part, c),
    }
}
