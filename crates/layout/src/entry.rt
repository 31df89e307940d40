// An entry by value.
use geometry::Cell;

// 'an entry being a cell and a tag'
#[derive(Clone, Copy)]
pub struct Entry {
    pub cell: Cell,
    pub tag: u32,
}
