// Whether a rectangle is contained in one of a list.
ghost use Rattle.std.specs.Prelude.{◌≡◌};
ghost use Rattle.polygons.specs.Lists.{any};
ghost use Rattle.geometry.specs.Refine.{within};
ghost use Rattle.geometry.specs.Rects.{rects_left};

use crate::rect::Rect;
use crate::rects::Rects;

// Whether r is contained in one of the rectangles.
pub fn is_within_any(mut rects: Rects, r: Rect) -> bool
    ensures { result ≡ any (within r) (rects_left rects.entry) }
{
    rects.any(|s| r.is_within(s))
}
