// The four pieces of a rectangle cut by another with which it shares a cell. Each may be empty.
ghost use Rattle.std.specs.Prelude.{◌≡◌};
ghost use Rattle.geometry.specs.Cut.{x_ceiling, x_floor, y_ceiling, y_floor};

use crate::rect::Rect;

impl Rect {
    // 'x from S.ur to R.ur, y as R'
    #[tactic(auto, unfolding(crate::specs::Cut::x_ceiling))]
    pub fn x_ceiling(self, s: Rect) -> Rect
        ensures { result ≡ x_ceiling self s }
    {
        Rect { llx: s.urx, ..self }
    }

    // 'x from R.ll to S.ll, y as R'
    #[tactic(auto, unfolding(crate::specs::Cut::x_floor))]
    pub fn x_floor(self, s: Rect) -> Rect
        ensures { result ≡ x_floor self s }
    {
        Rect { urx: s.llx, ..self }
    }

    // 'x as U, y from S.ur to R.ur', U the common part
    #[tactic(auto, unfolding(crate::specs::Cut::y_ceiling, crate::specs::Common::overlap))]
    pub fn y_ceiling(self, s: Rect) -> Rect
        ensures { result ≡ y_ceiling self s }
    {
        Rect {
            lly: s.ury,
            ury: self.ury,
            ..self.overlap(s)
        }
    }

    // 'x as U, y from R.ll to S.ll'
    #[tactic(auto, unfolding(crate::specs::Cut::y_floor, crate::specs::Common::overlap))]
    pub fn y_floor(self, s: Rect) -> Rect
        ensures { result ≡ y_floor self s }
    {
        Rect {
            lly: self.lly,
            ury: s.lly,
            ..self.overlap(s)
        }
    }
}
