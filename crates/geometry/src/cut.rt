// Cutting: one rectangle, a list piece by piece, and by a polygon, one rectangle after another.
ghost use Rattle.std.specs.Prelude.{◌≡◌, ◌+◌, ◌*◌, ◌≤◌, length};
ghost use Rattle.polygons.specs.Limits.{at_most, most_pieces};
ghost use Rattle.polygons.specs.Lists.{any};
ghost use Rattle.geometry.specs.Common.{unless_empty, shares_with};
ghost use Rattle.geometry.specs.Cut.{pieces, cut, cut_list, cut_limited};
ghost use Rattle.geometry.specs.Numbers.{rects_in, rects_of, Appended, Written};
ghost use Rattle.geometry.specs.Rects.{rects_left};

use crate::limits::MOST_PIECES;
use crate::numbers::{copy, put_rect};
use crate::polygon::Polygon;
use crate::rect::Rect;
use crate::rects::Rects;

// The list is over 256.
#[derive(Clone, Copy, Debug, PartialEq, Eq)]
pub struct TooMany;

// Writes r at the n-th place, unless it is empty; answers how many there are then.
fn put_unless_empty(list: &mut [u32], n: usize, r: Rect) -> usize
    requires { 4 * n + 4 ≤ length list.old }
    ensures { Appended list.old n (unless_empty r) 1 list.new result }
{
    if r.is_empty() {
        return n;
    }
    put_rect(list, n, r);
    n + 1
}

// Writes the pieces of r outside s behind the first n rectangles, in order, empty ones left out.
fn put_pieces(list: &mut [u32], n: usize, r: Rect, s: Rect) -> usize
    requires { 4 * n + 16 ≤ length list.old }
    ensures { Appended list.old n (pieces r s) 4 list.new result }
{
    let a = put_unless_empty(list, n, r.x_ceiling(s));
    let b = put_unless_empty(list, a, r.x_floor(s));
    let c = put_unless_empty(list, b, r.y_ceiling(s));
    put_unless_empty(list, c, r.y_floor(s))
}

// Writes the cut of r by s behind the first n rectangles: at most four pieces.
fn put_cut(list: &mut [u32], n: usize, r: Rect, s: Rect) -> usize
    requires { 4 * n + 16 ≤ length list.old }
    ensures { Appended list.old n (cut r s) 4 list.new result }
{
    if r.shares(s) {
        return put_pieces(list, n, r, s);
    }
    put_rect(list, n, r);
    n + 1
}

// Writes the rectangles, cut by s, to another list.
pub fn cut_list(rects: Rects, s: Rect, out: &mut [u32]) -> Result<usize, TooMany>
    requires { 1088 ≤ length out.old }
    ensures { Written out.old (at_most most_pieces (cut_list (rects_left rects.entry) s)) result
        out.new }
{
    let mut m = 0;
    for r in rects {
        m = put_cut(out, m, r, s);
        if MOST_PIECES < m {
            return Err(TooMany);
        }
    }
    Ok(m)
}

// Whether one of the rectangles shares a cell with s.
pub fn any_shares(mut rects: Rects, s: Rect) -> bool
    ensures { result ≡ any (shares_with s) (rects_left rects.entry) }
{
    rects.any(|r| r.shares(s))
}

// Cuts the first n rectangles of a list by s in place; the spare list holds the pieces on the way.
fn cut_once(list: &mut [u32], n: usize, s: Rect, spare: &mut [u32]) -> Result<usize, TooMany>
    requires n_bound { n ≤ 256 }
    requires in_bounds { 1088 ≤ length list.old }
    requires in_bounds_2 { 1088 ≤ length spare.old }
    ensures written { Written list.old (at_most most_pieces (cut_list (rects_in list.old n) s)) result
        list.new }
    ensures spare_len_unchanged { length spare.new ≡ length spare.old }
{
    if !any_shares(Rects::new(list, n), s) {
        return Ok(n);
    }
    let m = cut_list(Rects::new(list, n), s, spare)?;
    copy(spare, 4 * m, list);
    Ok(m)
}

// Cuts the first n rectangles of a list by the polygon's rectangles, one after another, in place.
pub fn cut_polygon(
    list: &mut [u32],
    n: usize,
    p: Polygon,
    spare: &mut [u32],
) -> Result<usize, TooMany>
    requires n_bound { n ≤ 256 }
    requires in_bounds { 1088 ≤ length list.old }
    requires in_bounds_2 { 1088 ≤ length spare.old }
    ensures written { Written list.old (cut_limited (rects_in list.old n) (rects_of p)) result
        list.new }
    ensures spare_len_unchanged { length spare.new ≡ length spare.old }
{
    let mut m = n;
    for s in &p.rects[..p.count] {
        m = cut_once(list, m, *s, spare)?;
    }
    Ok(m)
}
