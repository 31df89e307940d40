// The tests of a part: its counts and its unused numbers, and that a part not in use is all zero.
ghost use Rattle.std.specs.Prelude.{◌≡◌, ◌||◌, ◌+◌, ◌-◌, ◌*◌, ◌≤◌, ◌<◌, take, drop};
ghost use Rattle.plane.specs.Fanout.{fanout};
ghost use Rattle.memory.specs.Layout.{parts_of, part, in_use, all_zero, rect_count, item_count, counts_fit, rest_zero, node_fits, others_zero};
ghost use Rattle.memory.proofs.ReadingLaws.{IndexLength};
ghost use Rattle.layout.specs.Nodes.{IsPart, NodePart};

use crate::bits::in_use;
use crate::head::part_count;
use crate::numbers::{FANOUT, ITEMS, ITEMS_END, RECTS};
use crate::reading::{item_count, part_at, rect_count};
use crate::zeros::all_zero;

// Whether a part has 1 to 16 rectangles and 1 to 8 entries or branches.
#[tactic(auto, unfolding(memory::specs::Layout::counts_fit))]
fn counts_fit(p: &[u32]) -> bool
    requires { IsPart p.now }
    ensures { result ≡ counts_fit fanout p.now }
{
    let rects = rect_count(p);
    let items = item_count(p);
    1 <= rects && rects <= 16 && 1 <= items && items <= FANOUT
}

// Whether the numbers behind the rectangles are zero. Nearly all polygons have one rectangle: there the length is
// constant.
fn zero_behind_rects(p: &[u32]) -> bool
    requires { NodePart p.now }
    ensures { result ≡ all_zero (take (64 - 4 * rect_count p.now)
        (drop (2 + 4 * rect_count p.now) p.now)) }
{
    let n = rect_count(p) as usize;
    if n == 1 {
        return all_zero(&p[6..ITEMS]);
    }
    let a = RECTS + 4 * n;
    all_zero(&p[a..ITEMS])
}

// Whether the numbers behind the items, of w numbers each, are zero. No items reach beyond 90: from there the length is
// constant.
fn zero_behind_items(p: &[u32], w: usize) -> bool
    requires node_part { NodePart p.now }
    requires w_bound { w ≤ 3 }
    ensures { result ≡ all_zero (drop (66 + w * item_count p.now) p.now) }
{
    let end = ITEMS + w * item_count(p) as usize;
    all_zero(&p[end..ITEMS_END]) && all_zero(&p[ITEMS_END..])
}

// Whether the unused numbers of a part are zero, where an item takes w numbers.
#[tactic(auto, unfolding(memory::specs::Layout::rest_zero))]
fn rest_zero(p: &[u32], w: usize) -> bool
    requires node_part { NodePart p.now }
    requires w_bound { w ≤ 3 }
    ensures { result ≡ rest_zero w p.now }
{
    zero_behind_rects(p) && zero_behind_items(p, w)
}

// Whether part k is a node's, whose items take w numbers each: in use, with counts and unused numbers that fit.
#[tactic(auto, unfolding(memory::specs::Layout::node_fits))]
pub fn node_fits(m: &[u32], k: u32, w: usize) -> bool
    requires index_length { IndexLength m.now }
    requires w_bound { w ≤ 3 }
    ensures { result ≡ node_fits fanout w m.now k }
{
    if part_count(m) <= k || !in_use(m, k) {
        return false;
    }
    let p = part_at(m, k);
    counts_fit(p) && rest_zero(p, w)
}

// Whether part k is in use or all zero.
fn used_or_zero(m: &[u32], k: u32) -> bool
    requires index_length { IndexLength m.now }
    requires k_bound { k < parts_of m.now }
    ensures { result ≡ in_use m.now k || all_zero (part m.now k) }
{
    in_use(m, k) || all_zero(part_at(m, k))
}

// Whether every part is in use or all zero.
pub fn others_zero(m: &[u32]) -> bool
    requires { IndexLength m.now }
    ensures { result ≡ others_zero m.now (parts_of m.now) }
{
    (0..part_count(m)).all(|k| used_or_zero(m, k))
}
