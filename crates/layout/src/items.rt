// Lists of entries as a leaf's part has them.
ghost use Rattle.std.specs.Prelude.{◌+◌, ◌*◌, ◌≤◌, ◌≡◌, length};
ghost use Rattle.layout.specs.Entries.{tree_entry};
ghost use Rattle.layout.specs.Items.{put_entry};
ghost use Rattle.layout.specs.Loaded.{entry_among};

use crate::entry::Entry;
use crate::numbers::ENTRY;
use geometry::Cell;

// The entry at the at-th place of the list.
#[tactic(auto, unfolding(crate::specs::Loaded::entry_among))]
pub fn entry_at(list: &[u32], at: usize) -> Entry
    requires { 3 * (at + 1) ≤ length list.now }
    ensures { tree_entry result ≡ entry_among list.now at }
{
    let from = ENTRY * at;
    Entry {
        cell: Cell {
            x: list[from],
            y: list[from + 1],
        },
        tag: list[from + 2],
    }
}

// Writes an entry at the at-th place of the list.
#[tactic(auto, unfolding(crate::specs::Items::put_entry))]
pub fn put_entry(list: &mut [u32], at: usize, e: Entry)
    requires { 3 * (at + 1) ≤ length list.old }
    ensures { list.new ≡ put_entry list.old at (tree_entry e) }
{
    let to = ENTRY * at;
    list[to] = e.cell.x;
    list[to + 1] = e.cell.y;
    list[to + 2] = e.tag;
}
