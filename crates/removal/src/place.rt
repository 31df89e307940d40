// The place of a cell's entry in a leaf.
ghost use Rattle.removal.specs.Place.{HoldsCell, EntryPlace};

use geometry::Cell;
use layout::entry_cell;

// The place of the cell's entry in a leaf's part that holds one.
pub fn entry_place(p: &[u32], c: Cell) -> usize
    requires { HoldsCell p.now c }
    ensures { EntryPlace p.now c result }
{
    let mut i = 0;
    // a while: the leaf holds an entry of the cell, and `position` would need an answer where none is found
    while entry_cell(p, i) != c {
        i += 1;
    }
    i
}
