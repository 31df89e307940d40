// The cells of a rectangle that a list of rectangles lacks, counted cut by cut, without a list of pieces: there may be
// more than 256.
ghost use Rattle.std.specs.Prelude.{◌≡◌, ◌≤◌, min};
ghost use Rattle.geometry.specs.Rects.{rects_left};
ghost use Rattle.area.specs.Lacked.{lacked};

use cover::next_shared;
use geometry::{Rect, Rects};

// How many cells of r, which may be empty, the rectangles lack, or the limit where that is less: no more is counted
// once the limit is reached.
#[tactic(auto, using(crate::proofs::LackCuts::counting))]
pub fn lacking(rects: Rects, r: Rect, limit: u64) -> u64
    requires urx_bound { r.urx ≤ 65536 }
    requires ury_bound { r.ury ≤ 65536 }
    ensures { result ≡ min limit (lacked (rects_left rects.entry) r) }
{
    if limit == 0 || r.is_empty() {
        return 0;
    }
    let mut rest = rects;
    let Some(s) = next_shared(&mut rest, r) else {
        return limit.min(r.area());
    };
    let a = lacking(rest, r.x_ceiling(s), limit);
    let b = a + lacking(rest, r.x_floor(s), limit - a);
    let d = b + lacking(rest, r.y_ceiling(s), limit - b);
    d + lacking(rest, r.y_floor(s), limit - d)
}
