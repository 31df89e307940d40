// The common parts of a list with the rectangles of a polygon.
ghost use Rattle.std.specs.Prelude.{◌+◌, ◌*◌, ◌≤◌, length};
ghost use Rattle.geometry.specs.Common.{common, common_with};
ghost use Rattle.geometry.specs.Cut.{common_limited};
ghost use Rattle.geometry.specs.Numbers.{rects_of, Appended, Written};
ghost use Rattle.geometry.specs.Rects.{rects_left};

use crate::cut::TooMany;
use crate::limits::MOST_PIECES;
use crate::numbers::put_rect;
use crate::polygon::Polygon;
use crate::rect::Rect;
use crate::rects::Rects;

// Writes the common part of r and s, if they have one, at the n-th place.
fn put_common(list: &mut [u32], n: usize, r: Rect, s: Rect) -> usize
    requires { 4 * n + 4 ≤ length list.old }
    ensures { Appended list.old n (common r s) 1 list.new result }
{
    if let Some(part) = r.common(s) {
        put_rect(list, n, part);
        return n + 1;
    }
    n
}

// Writes the common parts of r and the polygon's rectangles behind the first n rectangles.
fn put_common_with(list: &mut [u32], n: usize, r: Rect, p: Polygon) -> usize
    requires { 4 * n + 64 ≤ length list.old }
    ensures { Appended list.old n (common_with (rects_of p) r) 16 list.new result }
{
    let mut m = n;
    for s in &p.rects[..p.count] {
        m = put_common(list, m, r, *s);
    }
    m
}

// Writes the common parts of the rectangles and the polygon's to another list.
pub fn common_parts(rects: Rects, p: Polygon, out: &mut [u32]) -> Result<usize, TooMany>
    requires { 1088 ≤ length out.old }
    ensures { Written out.old (common_limited (rects_left rects.entry) (rects_of p)) result
        out.new }
{
    let mut m = 0;
    for r in rects {
        m = put_common_with(out, m, r, p);
        if MOST_PIECES < m {
            return Err(TooMany);
        }
    }
    Ok(m)
}
