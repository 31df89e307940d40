// Whether two lists of rectangles, read in place, are apart.
ghost use Rattle.std.specs.Prelude.{◌≡◌};
ghost use Rattle.geometry.specs.Rects.{rects_left};
ghost use Rattle.cover.specs.Tests.{apart};

use geometry::{Rects, any_shares};

// Whether the rectangles p and q share no cell.
pub fn are_apart(mut p: Rects, q: Rects) -> bool
    ensures { result ≡ apart (rects_left p.entry) (rects_left q.entry) }
{
    p.all(|r| !any_shares(q, r))
}
