// Searches in a list of rectangles: for one that is contained in another, for two that are joinable.
ghost use Rattle.std.specs.Prelude.{◌≡◌, ◌+◌, ◌*◌, ◌≤◌, ◌<◌, length, drop};
ghost use Rattle.polygons.specs.Lists.{any};
ghost use Rattle.geometry.specs.Numbers.{rects_in};
ghost use Rattle.geometry.specs.Rects.{rects_left};
ghost use Rattle.geometry.specs.Refine.{strictly_within, contained, first_contained, partner};
ghost use Rattle.refinement.specs.Search.{below, first_two, in_union, joins_union, union_partner, UncontainedBefore, UnjoinedBefore, OnlyContainer};

use geometry::{Rect, Rects, is_within_any, rect_at};

// Whether r is contained in, and not equal to, one of the rectangles.
pub fn is_strictly_within_any(mut rects: Rects, r: Rect) -> bool
    ensures { result ≡ any (strictly_within r) (rects_left rects.entry) }
{
    rects.any(|s| r.is_strictly_within(s))
}

// Whether the i-th of n rectangles is contained in another; of equal ones the later counts as contained.
pub fn is_contained(list: &[u32], n: usize, i: usize) -> bool
    requires i_lt_n { i < n }
    requires n_in_bounds { 4 * n ≤ length list.now }
    ensures { result ≡ contained (rects_in list.now n) i }
{
    let r = rect_at(list, i);
    let later = Rects::between(list, i + 1, n);
    is_within_any(Rects::new(list, i), r) || is_strictly_within_any(later, r)
}

// The first contained one of n rectangles, none of which is contained before the given one.
pub fn first_contained(list: &[u32], n: usize, from: usize) -> Option<usize>
    requires n_in_bounds { 4 * n ≤ length list.now }
    requires uncontained_before { UncontainedBefore (rects_in list.now n) from }
    ensures { result ≡ below n (first_contained (rects_in list.now n)) }
{
    (from..n).find(|&i| is_contained(list, n, i))
}

// The first later one of n rectangles that is joinable with the i-th.
pub fn partner_of(list: &[u32], n: usize, i: usize) -> Option<usize>
    requires i_lt_n { i < n }
    requires n_in_bounds { 4 * n ≤ length list.now }
    ensures { result ≡ below n (partner (rects_in list.now n) i) }
{
    let r = rect_at(list, i);
    (i + 1..n).find(|&j| r.is_joinable(rect_at(list, j)))
}

// The first of n rectangles that is joinable with a later one, where none is before the given one, and the first
// later one that it is joinable with.
pub fn first_join(list: &[u32], n: usize, from: usize) -> Option<(usize, usize)>
    requires n_in_bounds { 4 * n ≤ length list.now }
    requires unjoined_before { UnjoinedBefore (rects_in list.now n) from }
    ensures { result ≡ first_two (rects_in list.now n) n }
{
    for i in from..n {
        if let Some(j) = partner_of(list, n, i) {
            return Some((i, j));
        }
    }
    None
}

// Whether the i-th of n rectangles is another than the given one and is contained in it.
pub fn is_in_union(list: &[u32], n: usize, at: usize, i: usize) -> bool
    requires i_lt_n { i < n }
    requires at_lt_n { at < n }
    requires n_in_bounds { 4 * n ≤ length list.now }
    ensures { result ≡ in_union (rects_in list.now n) at i }
{
    i != at && rect_at(list, i).is_within(rect_at(list, at))
}

// The first contained one of n rectangles, where only in the given one can another be contained.
pub fn first_in_union(list: &[u32], n: usize, at: usize) -> Option<usize>
    requires n_in_bounds { 4 * n ≤ length list.now }
    requires only_container { OnlyContainer (rects_in list.now n) at }
    ensures { result ≡ below n (first_contained (rects_in list.now n)) }
{
    (0..n).find(|&i| is_in_union(list, n, at, i))
}

// Whether the i-th of n rectangles is another than the given one and is joinable with it. Beside is_in_union: each is a
// rule of refine.
pub fn joins_union(list: &[u32], n: usize, at: usize, i: usize) -> bool
    requires i_lt_n { i < n }
    requires at_lt_n { at < n }
    requires n_in_bounds { 4 * n ≤ length list.now }
    ensures { result ≡ joins_union (rects_in list.now n) at i }
{
    i != at && rect_at(list, i).is_joinable(rect_at(list, at))
}

// The first other one of n rectangles that is joinable with the given one.
pub fn union_partner(list: &[u32], n: usize, at: usize) -> Option<usize>
    requires at_lt_n { at < n }
    requires n_in_bounds { 4 * n ≤ length list.now }
    ensures { result ≡ below n (union_partner (rects_in list.now n) at) }
{
    (0..n).find(|&i| joins_union(list, n, at, i))
}
