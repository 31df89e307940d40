// Reading a node: its part, and what stands in it. Nothing is copied but the number or the cell that is asked for.
ghost use Rattle.std.specs.Prelude.{◌≡◌, ◌+◌, ◌≤◌, ◌<◌};
ghost use Rattle.geometry.specs.Rects.{rects_left};
ghost use Rattle.memory.specs.Layout.{part, rect_count, item_count, entry_in, entries_in, children_in, rect_numbers, polygon_in};
ghost use Rattle.layout.specs.Entries.{entries_left};
ghost use Rattle.layout.specs.Nodes.{IsPart, PartIn, PolygonPart, count_at, child_at};

use crate::entry_list::Entries;
use crate::items::entry_at;
use crate::numbers::{ITEM_COUNT, ITEMS, RECTS};
use crate::place::part_range;
use geometry::{Cell, Rects};

// The part of the node with the number k.
#[tactic(auto, unfolding(memory::specs::Layout::part))]
pub fn part_at(m: &[u32], k: u32) -> &[u32]
    requires { PartIn m.now k }
    ensures result_value { result.now ≡ part m.now k }
    ensures part { IsPart result.now }
{
    &m[part_range(k)]
}

// How many rectangles its polygon has.
pub fn rect_count(p: &[u32]) -> u32
    requires { IsPart p.now }
    ensures { result ≡ rect_count p.now }
{
    p[0]
}

// The numbers of a part from its rectangles on, four a rectangle.
pub fn rects(p: &[u32]) -> &[u32]
    requires { IsPart p.now }
    ensures { result.now ≡ rect_numbers p.now }
{
    &p[RECTS..]
}

// The rectangles of its polygon.
pub fn polygon_in(p: &[u32]) -> Rects<'_>
    requires part { IsPart p.now }
    requires p_bound { rect_count p.now ≤ 31 }
    ensures { rects_left result ≡ polygon_in p.now }
{
    Rects::new(&p[RECTS..], p[0] as usize)
}

// How many items it has: entries, or children.
pub fn item_count(p: &[u32]) -> u32
    requires { IsPart p.now }
    ensures { result ≡ item_count p.now }
{
    p[ITEM_COUNT]
}

// The cell of the i-th entry of a leaf.
#[tactic(auto, unfolding(memory::specs::Layout::entry_in, crate::specs::Loaded::entry_among))]
pub fn entry_cell(p: &[u32], i: usize) -> Cell
    requires part { IsPart p.now }
    requires i_bound { i < 8 }
    ensures { result ≡ (entry_in p.now i).cell }
{
    entry_at(&p[ITEMS..], i).cell
}

// The children of a routing node, by their part numbers.
pub fn children(p: &[u32]) -> &[u32]
    requires part { IsPart p.now }
    requires p_bound { item_count p.now ≤ 62 }
    ensures { result.now ≡ children_in p.now }
{
    let end = ITEMS + (p[ITEM_COUNT] as usize);
    &p[ITEMS..end]
}

// The entries of a leaf.
pub fn entries(p: &[u32]) -> Entries<'_>
    requires part { IsPart p.now }
    requires p_bound { item_count p.now ≤ 20 }
    ensures { entries_left result ≡ entries_in p.now (item_count p.now) }
{
    Entries::new(&p[ITEMS..], p[ITEM_COUNT] as usize)
}

// How many items the node at part k has.
pub fn count_at(m: &[u32], k: u32) -> u32
    requires { PartIn m.now k }
    ensures { result ≡ count_at m.now k }
{
    item_count(part_at(m, k))
}

// The rectangles of the polygon of the node at part k.
pub fn polygon_rects(m: &[u32], k: u32) -> Rects<'_>
    requires { PolygonPart m.now k }
    ensures { rects_left result ≡ polygon_in (part m.now k) }
{
    polygon_in(part_at(m, k))
}

// The children of the routing node at part k.
pub fn children_at(m: &[u32], k: u32) -> &[u32]
    requires part_in { PartIn m.now k }
    requires few { count_at m.now k ≤ 62 }
    ensures { result.now ≡ children_in (part m.now k) }
{
    children(part_at(m, k))
}

// The i-th child of the routing node at part k.
pub fn child_at(m: &[u32], k: u32, i: usize) -> u32
    requires part_in { PartIn m.now k }
    requires i_bound { i < 8 }
    ensures { result ≡ child_at m.now k i }
{
    part_at(m, k)[ITEMS + i]
}
