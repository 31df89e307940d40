// The numbers of the layout, which memory/specs/Layout.antt defines and docs/LAYOUT.md describes.

// '1 to 8 entries', '1 to 8 branches'.
pub const FANOUT: u32 = 8;

// 'N from 1 to 256'.
pub const MOST_PARTS: usize = 256;

// The numbers before the first part.
pub const HEAD: usize = 64;

// Where it has the height and the root's part; the numbers behind them are unused.
pub const HEIGHT: usize = 8;

pub const ROOT: usize = 9;

pub const HEAD_END: usize = 10;

// The numbers of a part. The first is the count of its rectangles.
pub const PART: usize = 128;

// Where a part has the count of its items: entries, or parts of children.
pub const ITEM_COUNT: usize = 1;

// Where its rectangles start.
pub const RECTS: usize = 2;

// Where its items start, and where the longest list of them ends: eight entries.
pub const ITEMS: usize = 66;

pub const ITEMS_END: usize = 90;

// The numbers of a node's items by value: nine entries.
pub const ITEM_NUMBERS: usize = 27;

// The numbers that an entry takes, and a child.
pub const ENTRY: usize = 3;

pub const CHILD: usize = 1;
