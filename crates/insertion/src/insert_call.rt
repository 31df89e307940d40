// Insertion.
ghost use Rattle.std.specs.Prelude.{◌≡◌, length, true};
ghost use Rattle.geometry.specs.Cells.{on_grid};
ghost use Rattle.memory.specs.TreeIn.{Known, TreeIn};
ghost use Rattle.layout.specs.Entries.{tree_entry};
ghost use Rattle.answers.specs.Changes.{InsertCall};
ghost use Rattle.insertion.specs.Insert.{InsertDone};

use crate::building::insert_new;
use crate::first::insert_first;
use answers::{Inserted, Refusal};
use layout::{Entry, fill_zeros, is_index_length};
use queries::is_held;
use soundness::open_known;

// The insertion into a tree.
fn insert_in_tree(
    m: &mut [u32],
    work: &mut [u32],
    level: u32,
    root: u32,
    e: Entry,
) -> Result<Inserted, Refusal>
    requires tree_in { TreeIn m.old level root }
    requires work_len { length work.old ≡ length m.old }
    requires cell_value { on_grid e.cell ≡ true }
    ensures { InsertDone m.old work.old (tree_entry e) m.new
        work.new result }
{
    if is_held(m, level, root, e.cell) {
        return Err(Refusal::Held);
    }
    let r = insert_new(m, work, level, root, e);
    fill_zeros(work);
    r
}

// Inserts an entry; the work area is as long as the index.
pub fn insert(m: &mut [u32], work: &mut [u32], e: Entry) -> Result<Inserted, Refusal>
    ensures { InsertCall m.old work.old (tree_entry e) m.new
        work.new result }
{
    insert_known(m, work, false, e)
}

// The same; a memory that is known to read as an index is not tested.
pub fn insert_known(
    m: &mut [u32],
    work: &mut [u32],
    known: bool,
    e: Entry,
) -> Result<Inserted, Refusal>
    requires { Known m.old known }
    ensures { InsertCall m.old work.old (tree_entry e) m.new
        work.new result }
{
    if !is_index_length(m) {
        return Err(Refusal::WrongLength);
    }
    if work.len() != m.len() {
        return Err(Refusal::WorkLength);
    }
    if !e.cell.on_grid() {
        return Err(Refusal::Invalid);
    }
    match open_known(m, known)? {
        None => {
            let done = insert_first(m, work, e);
            fill_zeros(work);
            Ok(done)
        }
        Some(root) => insert_in_tree(m, work, root.level, root.part, e),
    }
}
