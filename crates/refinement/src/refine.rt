// Refine: drop contained rectangles and join fitting pairs until neither applies, in place.
ghost use Rattle.std.specs.Prelude.{◌≡◌, ◌+◌, ◌-◌, ◌*◌, ◌≤◌, ◌<◌, length};
ghost use Rattle.geometry.specs.Numbers.{rects_in};
ghost use Rattle.refinement.specs.Changes.{Dropped, Joined, Refined};
ghost use Rattle.refinement.specs.Search.{place_without, UncontainedBefore, UnjoinedBefore, AfterJoin, NextPair, Known, Stepped};

use crate::scan::{first_contained, first_in_union, first_join, union_partner};
use geometry::{put_rect, rect_at};

// Takes the i-th of n rectangles out: the later ones move down.
fn drop_rect(list: &mut [u32], n: usize, i: usize)
    requires i_lt_n { i < n }
    requires n_in_bounds { 4 * n ≤ length list.old }
    ensures { Dropped list.old n i list.new }
{
    list.copy_within(4 * (i + 1)..4 * n, 4 * i);
}

// Puts the union of the i-th and the j-th of n rectangles at i and takes the j-th out.
fn join_rects(list: &mut [u32], n: usize, i: usize, j: usize)
    requires i_lt_j { i < j }
    requires j_lt_n { j < n }
    requires n_in_bounds { 4 * n ≤ length list.old }
    ensures { Joined list.old n i j list.new }
{
    let r = rect_at(list, i);
    let s = rect_at(list, j);
    put_rect(list, i, r.union(s));
    drop_rect(list, n, j);
}

// Where the search for the next step goes on.
#[derive(Clone, Copy)]
enum Search {
    // Before this place none is contained in another.
    Contained(usize),
    // The place of the last union: only in it can another be contained. Before the second place none is joinable with a
    // later one, but the union may be.
    Union(usize, usize),
}

// The new place of what stood at k, when the i-th is taken out.
fn place_without(k: usize, i: usize) -> usize
    ensures { result ≡ place_without k i }
{
    if i < k { k - 1 } else { k }
}

// The step that joins the i-th and the j-th of n rectangles, the next pair. Before the given one none is joinable with
// a later one but these two.
fn join_pair(list: &mut [u32], n: usize, i: usize, j: usize, from: usize) -> Option<Search>
    requires n_in_bounds { 4 * n ≤ length list.old }
    requires next_pair { NextPair (rects_in list.old n) i j from }
    ensures { Stepped list.old n result list.new }
{
    join_rects(list, n, i, j);
    let next = place_without(from, j);
    Some(Search::Union(i, next))
}

// The step on n rectangles, none of which is contained in another. Before the given one none is joinable with a later
// one.
fn join_step(list: &mut [u32], n: usize, from: usize) -> Option<Search>
    requires n_in_bounds { 4 * n ≤ length list.old }
    requires unjoined_before { UnjoinedBefore (rects_in list.old n) from }
    ensures { Stepped list.old n result list.new }
{
    let (i, j) = first_join(list, n, from)?;
    join_pair(list, n, i, j, i)
}

// The step on n rectangles, none of which is contained in another before the given one.
fn drop_step(list: &mut [u32], n: usize, from: usize) -> Option<Search>
    requires n_in_bounds { 4 * n ≤ length list.old }
    requires uncontained_before { UncontainedBefore (rects_in list.old n) from }
    ensures { Stepped list.old n result list.new }
{
    if let Some(i) = first_contained(list, n, from) {
        drop_rect(list, n, i);
        return Some(Search::Contained(i));
    }
    join_step(list, n, 0)
}

// The step on n rectangles after a join, with the union at the given place.
fn union_step(list: &mut [u32], n: usize, at: usize, from: usize) -> Option<Search>
    requires n_in_bounds { 4 * n ≤ length list.old }
    requires after_join { AfterJoin (rects_in list.old n) at from }
    ensures { Stepped list.old n result list.new }
{
    if let Some(i) = first_in_union(list, n, at) {
        drop_rect(list, n, i);
        let union = place_without(at, i);
        let next = place_without(from, i);
        return Some(Search::Union(union, next));
    }
    match union_partner(list, n, at) {
        Some(j) => join_pair(list, n, j.min(at), j.max(at), from),
        None => join_step(list, n, from),
    }
}

// One step on n rectangles.
fn refine_step(list: &mut [u32], n: usize, s: Search) -> Option<Search>
    requires n_in_bounds { 4 * n ≤ length list.old }
    requires known { Known (rects_in list.old n) s }
    ensures { Stepped list.old n result list.new }
{
    match s {
        Search::Contained(from) => drop_step(list, n, from),
        Search::Union(at, from) => union_step(list, n, at, from),
    }
}

// Refines the first n rectangles of a list in place; answers how many are left.
pub fn refine_list(list: &mut [u32], n: usize) -> usize
    requires { 4 * n ≤ length list.old }
    ensures { Refined list.old n list.new result }
{
    let mut m = n;
    let mut s = Search::Contained(0);
    while let Some(next) = refine_step(list, m, s) {
        s = next;
        m -= 1;
    }
    m
}
