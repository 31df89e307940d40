// A rectangle covered by a list of rectangles, and one list inside another, read in place.
ghost use Rattle.std.specs.Prelude.{◌≡◌};
ghost use Rattle.geometry.specs.Rects.{rects_left};
ghost use Rattle.cover.specs.Tests.{covered_by, inside_of, none_remaining, FirstShared};

use geometry::{Rect, Rects, is_within_any};

// Takes the first rectangle that shares a cell with r, if there is one, and leaves those behind it. Those before it
// cut nothing.
pub fn next_shared(rects: &mut Rects, r: Rect) -> Option<Rect>
    ensures { FirstShared (rects_left rects.old) r result (rects_left rects.new) }
{
    rects.find(|s| r.shares(*s))
}

// Whether nothing of r, which may be empty, is left when the rectangles are cut out.
#[tactic(auto, using(crate::proofs::CoverLaws::remaining))]
fn none_remaining(rects: Rects, r: Rect) -> bool
    ensures { result ≡ none_remaining (rects_left rects.entry) r }
{
    if r.is_empty() {
        return true;
    }
    let mut rest = rects;
    let Some(s) = next_shared(&mut rest, r) else {
        return false;
    };
    r.is_within(s)
        || none_remaining(rest, r.x_ceiling(s))
            && none_remaining(rest, r.x_floor(s))
            && none_remaining(rest, r.y_ceiling(s))
            && none_remaining(rest, r.y_floor(s))
}

// Whether the cells of r are among those of the rectangles; an empty r is refused.
#[tactic(auto, using(crate::proofs::CoverLaws::covering))]
pub fn covered(rects: Rects, r: Rect) -> bool
    ensures { result ≡ covered_by (rects_left rects.entry) r }
{
    // the usual case, that r lies in one of them, cuts nothing
    !r.is_empty() && (is_within_any(rects, r) || none_remaining(rects, r))
}

// Whether the cells of the rectangles q are among those of p.
pub fn inside(p: Rects, mut q: Rects) -> bool
    ensures { result ≡ inside_of (rects_left p.entry) (rects_left q.entry) }
{
    q.all(|r| covered(p, r))
}
