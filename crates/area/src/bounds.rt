// The bounds of a list of rectangles.
ghost use Rattle.std.specs.Prelude.{◌≡◌};
ghost use Rattle.geometry.specs.Rects.{rects_left};
ghost use Rattle.area.specs.Bounds.{bounds_of};

use geometry::{Rect, Rects};

// The smallest rectangle around the rectangles; one with no cell where there are none.
pub fn bounds_of(rects: Rects) -> Rect
    ensures { result ≡ bounds_of (rects_left rects.entry) }
{
    let mut rest = rects;
    let Some(first) = rest.next() else {
        return Rect {
            llx: 0,
            lly: 0,
            urx: 0,
            ury: 0,
        };
    };
    let mut bounds = first;
    for r in rest {
        bounds = bounds.union(r);
    }
    bounds
}
