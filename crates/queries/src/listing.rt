// The result list of the window query.
ghost use Rattle.std.specs.Prelude.{◌+◌, ◌*◌, ◌≤◌, ◌≡◌, length};
ghost use Rattle.layout.specs.Entries.{tree_entry};
ghost use Rattle.answers.specs.Listing.{list_width, put_listed};

use answers::LIST_WIDTH;
use layout::Entry;

// Writes an entry at the at-th place of the list.
pub fn put_listed(list: &mut [u32], at: usize, e: Entry)
    requires { list_width * (at + 1) ≤ length list.old }
    ensures { list.new ≡ put_listed list.old at (tree_entry e) }
{
    let to = LIST_WIDTH * at;
    list[to] = e.cell.x;
    list[to + 1] = e.cell.y;
    list[to + 2] = e.tag;
}
