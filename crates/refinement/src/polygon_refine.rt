// Refine of a polygon by value, in its own array: a loop over the pairs of its rectangles finds the next step. Its twin
// refine_list makes the definition's steps in a list of numbers; this one drops contained rectangles as it meets them.
ghost use Rattle.std.specs.Prelude.{◌≡◌, true, ◌≤◌, ◌<◌, Some};
ghost use Rattle.geometry.specs.Numbers.{rects_of, PolygonOf};
ghost use Rattle.geometry.specs.Refine.{dropped, joins, joined, refine};
ghost use Rattle.refinement.specs.Pairs.{near, Apart, Clear, OthersApart, NextIs};

use geometry::{Polygon, Rect};

// The next step in refining a polygon. Two are near where one is contained in the other or they are joinable.
#[derive(Clone, Copy)]
enum Next {
    // The first is contained in another. Without it, no rectangle before the second place is near a later one.
    Drop(usize, usize),
    // None is contained in another, and these two are the first that are joinable.
    Join(usize, usize),
}

// The next step where the given two are the first that are near, and are joinable: a contained rectangle is dropped
// before any are joined. Contained ones can be dropped in any order, so the first that is met will do.
fn drop_or_join(p: Polygon, at: usize, with: usize) -> Next
    requires at_lt_with { at < with }
    requires with_lt_count { with < p.count }
    requires clear { Clear near (rects_of p) at with }
    requires with_value { joins (rects_of p) at with ≡ true }
    ensures { NextIs p (Some result) }
{
    let mut start = with;
    for i in at..p.count {
        let r = p.rects[i];
        for j in start..p.count {
            let s = p.rects[j];
            if s.is_within(r) {
                return Next::Drop(j, at);
            }
            if r.is_within(s) {
                return Next::Drop(i, at);
            }
        }
        start = i + 2;
    }
    Next::Join(at, with)
}

// The next step where no rectangle before the given one is near a later one; none where no two are near. It goes
// through the pairs in one function, since each call that takes the polygon copies it.
fn next_step(p: Polygon, from: usize) -> Option<Next>
    requires { Apart near (rects_of p) from }
    ensures { NextIs p result }
{
    for i in from..p.count {
        let r = p.rects[i];
        for j in i + 1..p.count {
            let s = p.rects[j];
            if s.is_within(r) {
                return Some(Next::Drop(j, i));
            }
            if r.is_within(s) {
                return Some(Next::Drop(i, i));
            }
            if r.is_joinable(s) {
                return Some(drop_or_join(p, i, j));
            }
        }
    }
    None
}

// The polygon without its i-th rectangle.
fn without(p: Polygon, i: usize) -> Polygon
    requires { i < p.count }
    ensures { PolygonOf (dropped (rects_of p) i) result }
{
    let mut out = p;
    out.rects.copy_within(i + 1..p.count, i);
    out.count -= 1;
    out
}

// The polygon with the union of its i-th and its j-th rectangle at i, and without the j-th.
fn join(p: Polygon, i: usize, j: usize) -> Polygon
    requires i_lt_j { i < j }
    requires j_lt_count { j < p.count }
    ensures { PolygonOf (joined (rects_of p) i j) result }
{
    let r = p.rects[i];
    let s = p.rects[j];
    let mut q = without(p, j);
    q.rects[i] = r.union(s);
    q
}

// Whether one of the two is contained in the other or they are joinable.
fn is_near(r: Rect, s: Rect) -> bool
    ensures { result ≡ near r s }
{
    r.is_within(s) || s.is_within(r) || r.is_joinable(s)
}

// The first rectangle before the i-th that is near it, or i: before that place none is near a later one, so the search
// goes on there.
fn first_near(p: Polygon, i: usize) -> usize
    requires i_lt_count { i < p.count }
    requires others_apart { OthersApart (rects_of p) i }
    ensures upper_bound { result ≤ i }
    ensures apart { Apart near (rects_of p) result }
{
    let r = p.rects[i];
    (0..i).find(|&k| is_near(p.rects[k], r)).unwrap_or(i)
}

// The polygon with its rectangles refined. After a drop the search goes on where it stood, after a join where the
// union is near an earlier rectangle, or else where it stood.
pub fn refine_polygon(p: Polygon) -> Polygon
    ensures { PolygonOf (refine (rects_of p)) result }
{
    let mut q = p;
    let mut from = 0;
    while let Some(next) = next_step(q, from) {
        match next {
            Next::Drop(i, apart) => {
                q = without(q, i);
                from = apart;
            }
            Next::Join(i, j) => {
                q = join(q, i, j);
                from = first_near(q, i);
            }
        }
    }
    q
}
