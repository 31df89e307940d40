// The entries of a leaf, one after another.
ghost use Rattle.std.specs.Prelude.{◌≡◌, ◌*◌, ◌≤◌, length, take};
ghost use Rattle.std.specs.Iterator.{YieldsFirstBy, item_count};
ghost use Rattle.layout.specs.Entries.{tree_entry, numbered, entries_left};

use crate::entry::Entry;
use crate::numbers::ENTRY;
use geometry::Cell;

// The entries of the numbers that are left, three each. They are lent, so that the leaf is not copied.
#[derive(Clone, Copy)]
pub struct Entries<'a> {
    left: &'a [u32],
}

impl<'a> Iterator for Entries<'a> {
    type Item = Entry;

    ghost next_gives = { YieldsFirstBy tree_entry entries_left };

    ghost remaining = { item_count entries_left };

    fn next(&mut self) -> Option<Entry> {
        let [x, y, tag, rest @ ..] = self.left else {
            return None;
        };
        self.left = rest;
        Some(Entry {
            cell: Cell { x: *x, y: *y },
            tag: *tag,
        })
    }
}

impl<'a> Entries<'a> {
    // The first n entries of the list.
    pub fn new(list: &'a [u32], n: usize) -> Entries<'a>
        requires { 3 * n ≤ length list.now }
        ensures { entries_left result ≡ numbered (take (3 * n) list.now) }
    {
        Entries {
            left: &list[..ENTRY * n],
        }
    }
}
