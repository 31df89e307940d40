// A node by value: loaded from its part, changed, and stored again (store.rt).
ghost use Rattle.std.specs.Prelude.{[], ◌≡◌, ◌≤◌, ◌<◌, set};
ghost use Rattle.memory.specs.Layout.{part};
ghost use Rattle.layout.specs.Entries.{tree_entry, entries_left};
ghost use Rattle.layout.specs.Items.{put_entry};
ghost use Rattle.layout.specs.Loaded.{node_of, node_in, child_among, entry_among, node_entries, node_children, with_entry, with_child, ItemOut};
ghost use Rattle.layout.specs.Nodes.{IsPart, PartIn};

use crate::entry::Entry;
use crate::entry_list::Entries;
use crate::gap::move_down;
use crate::items::{entry_at, put_entry};
use crate::numbers::{CHILD, ENTRY, ITEM_COUNT, ITEM_NUMBERS, ITEMS};
use crate::reading::part_at;
use geometry::Cell;

// The numbers of a node's entries or branches, as a part has them, zeros behind them. There is room for nine entries,
// which a leaf has before it is split.
pub type Items = [u32; ITEM_NUMBERS];

// How many entries or branches a node has, and their numbers. A node's polygon is the one its branch gives (document
// 01): it is not part of the value, and is read where it stands.
#[derive(Clone, Copy)]
pub struct Node {
    pub count: u32,
    pub items: Items,
}

impl Node {
    // Without items.
    #[tactic(auto, unfolding(crate::specs::Loaded::node_of, memory::specs::Image::padded))]
    pub fn empty() -> Node
        ensures { result ≡ node_of 0 [] }
    {
        Node {
            count: 0,
            items: [0u32; ITEM_NUMBERS],
        }
    }

    // The node of a part.
    #[tactic(auto, unfolding(crate::specs::Loaded::node_in))]
    pub fn load(p: &[u32]) -> Node
        requires { IsPart p.now }
        ensures { result ≡ node_in p.now }
    {
        let mut items = [0u32; ITEM_NUMBERS];
        items.copy_from_slice(&p[ITEMS..ITEMS + ITEM_NUMBERS]);
        Node {
            count: p[ITEM_COUNT],
            items,
        }
    }

    // The entries of a leaf. They are lent, so that the node is not copied.
    pub fn entries(&self) -> Entries<'_>
        requires { self.now.count ≤ 9 }
        ensures { entries_left result ≡ node_entries self.now }
    {
        Entries::new(&self.items, self.count as usize)
    }

    // The children of a routing node, by their part numbers.
    pub fn children(&self) -> &[u32]
        requires { self.now.count ≤ 9 }
        ensures { result.now ≡ node_children self.now }
    {
        &self.items[..self.count as usize]
    }

    // A leaf with one more entry, behind the others.
    #[tactic(auto, unfolding(crate::specs::Loaded::with_entry))]
    pub fn with_entry(self, e: Entry) -> Node
        requires { self.count < 9 }
        ensures { result ≡ with_entry self (tree_entry e) }
    {
        let mut node = self;
        add_entry(&mut node.items, node.count, e);
        node.count += 1;
        node
    }

    // A routing node with one more child, behind the others, by its part number.
    #[tactic(auto, unfolding(crate::specs::Loaded::with_child))]
    pub fn with_child(self, k: u32) -> Node
        requires { self.count < 9 }
        ensures { result ≡ with_child self k }
    {
        let mut node = self;
        add_child(&mut node.items, node.count, k);
        node.count += 1;
        node
    }

    // A node without its i-th item, where an item takes w numbers: the later ones move down.
    fn without_item(self, w: usize, i: usize) -> Node
        requires w_bound { w ≤ 3 }
        requires i_lt_count { i < self.count }
        requires count_bound { self.count ≤ 8 }
        ensures { ItemOut w i self result }
    {
        let mut node = self;
        move_down(&mut node.items, w, w * i, w * (self.count as usize));
        node.count -= 1;
        node
    }

    // A leaf without its i-th entry.
    pub fn without_entry(self, i: usize) -> Node
        requires i_lt_count { i < self.count }
        requires count_bound { self.count ≤ 8 }
        ensures { ItemOut 3 i self result }
    {
        self.without_item(ENTRY, i)
    }

    // A routing node without its i-th child.
    pub fn without_child(self, i: usize) -> Node
        requires i_lt_count { i < self.count }
        requires count_bound { self.count ≤ 8 }
        ensures { ItemOut 1 i self result }
    {
        self.without_item(CHILD, i)
    }
}

// The node at part k.
pub fn node_at(m: &[u32], k: u32) -> Node
    requires { PartIn m.now k }
    ensures { result ≡ node_in (part m.now k) }
{
    Node::load(part_at(m, k))
}

// The part number of the i-th child of a routing node, by its items. They are lent, so that the node is not copied.
#[tactic(auto, unfolding(crate::specs::Loaded::child_among))]
pub fn child(items: &Items, i: usize) -> u32
    requires { i < 9 }
    ensures { result ≡ child_among items.now i }
{
    items[i]
}

// The cell of the i-th entry of a leaf, by its items.
pub fn cell(items: &Items, i: usize) -> Cell
    requires { i < 9 }
    ensures { result ≡ (entry_among items.now i).cell }
{
    nth_entry(items, i).cell
}

// The i-th entry of a leaf, by its items.
pub fn nth_entry(items: &Items, i: usize) -> Entry
    requires { i < 9 }
    ensures { tree_entry result ≡ entry_among items.now i }
{
    entry_at(items, i)
}

// Writes one more entry to a leaf's items, behind those that it has, so that the leaf is not copied.
pub fn add_entry(items: &mut Items, count: u32, e: Entry)
    requires { count < 9 }
    ensures { items.new ≡ put_entry items.old count (tree_entry e) }
{
    put_entry(items, count as usize, e);
}

// Writes one more child to a routing node's items, by its part number.
pub fn add_child(items: &mut Items, count: u32, k: u32)
    requires { count < 9 }
    ensures { items.new ≡ set items.old count k }
{
    items[count as usize] = k;
}
