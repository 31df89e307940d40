// The layout of an index's memory: the one crate whose code knows where each number stands. All others deal in nodes
// and part numbers.
#![tactic(auto)]

mod bits;
mod copies;
mod empty;
mod entry;
mod entry_list;
mod free;
mod gap;
mod head;
mod items;
mod node;
mod numbers;
mod part;
mod place;
mod reading;
mod store;
mod writing;
mod zeros;

pub use bits::bits_set;
pub use copies::{copy_node, copy_part};
pub use empty::no_tree;
pub use entry::Entry;
pub use entry_list::Entries;
pub use free::set_free;
pub use head::{head_rest_zero, is_index_length, part_count, root_part, tree_height};
pub use node::{Items, Node, add_child, add_entry, cell, child, node_at, nth_entry};
pub use numbers::{CHILD, ENTRY, FANOUT, MOST_PARTS};
pub use part::{node_fits, others_zero};
pub use reading::{
    child_at, children, children_at, count_at, entries, entry_cell, item_count, part_at,
    polygon_in, polygon_rects, rect_count, rects,
};
pub use store::{put_node, replace_node, set_node};
pub use writing::put_tree;
pub use zeros::{all_zero, fill_zeros};
