// A node written to its part.
ghost use Rattle.std.specs.Prelude.{◌≡◌, length};
ghost use Rattle.geometry.specs.Numbers.{rects_of};
ghost use Rattle.memory.specs.Layout.{part};
ghost use Rattle.memory.specs.Image.{node_part};
ghost use Rattle.layout.specs.Loaded.{with_node};
ghost use Rattle.layout.specs.Nodes.{IsPart, PartIn};
ghost use Rattle.layout.specs.Parts.{RectsStored, PartRoom, PartPut};
ghost use Rattle.layout.specs.PartSet.{set_part};

use crate::node::Node;
use crate::numbers::{ITEM_COUNT, ITEM_NUMBERS, ITEMS, RECTS};
use crate::place::part_range;
use crate::zeros::fill_zeros;
use geometry::Polygon;

// Writes the rectangles of a polygon, and zeros behind them.
fn store_rects(list: &mut [u32], p: Polygon)
    requires { length list.old ≡ 126 }
    ensures { RectsStored p list.new }
{
    let end = 4 * p.count;
    p.store(list);
    fill_zeros(&mut list[end..]);
}

// Writes a node's count and items to its part; the polygon there stays.
pub fn store_items(part: &mut [u32], node: Node)
    requires { IsPart part.old }
    ensures { part.new ≡ with_node part.old node }
{
    part[ITEMS..ITEMS + ITEM_NUMBERS].copy_from_slice(&node.items);
    part[ITEM_COUNT] = node.count;
}

// Writes a node with its polygon to its part; every other number is zero.
fn store_node(part: &mut [u32], p: Polygon, node: Node)
    requires { IsPart part.old }
    ensures { part.new ≡ node_part (rects_of p) node.count node.items }
{
    store_rects(&mut part[RECTS..], p);
    store_items(part, node);
    part[0] = p.count as u32;
}

// Writes a node with its polygon to the part next of the work area.
pub fn put_node(work: &mut [u32], next: u32, p: Polygon, node: Node)
    requires { PartRoom work.old next }
    ensures { PartPut work.old next (node_part (rects_of p) node.count node.items)
        work.new }
{
    store_node(&mut work[part_range(next)], p, node);
}

// Writes a node back to its part of the index; its polygon stays.
#[tactic(auto, unfolding(memory::specs::Layout::part, crate::specs::PartSet::set_part))]
pub fn set_node(m: &mut [u32], k: u32, node: Node)
    requires { PartIn m.old k }
    ensures { m.new ≡ set_part m.old k (with_node (part m.old k) node) }
{
    store_items(&mut m[part_range(k)], node);
}

// Writes a node with its polygon to its part of the index.
#[tactic(auto, unfolding(crate::specs::PartSet::set_part))]
pub fn replace_node(m: &mut [u32], k: u32, p: Polygon, node: Node)
    requires { PartIn m.old k }
    ensures { m.new ≡ set_part m.old k (node_part (rects_of p) node.count node.items) }
{
    store_node(&mut m[part_range(k)], p, node);
}
