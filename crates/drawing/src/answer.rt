// Why a call refuses, and what the cut by a polygon reports. The crate drawing_c gives the number of each refusal:
// `refusal_number` of its specs/Exports.antt.
ghost use Rattle.std.specs.Prelude.{◌≡◌};
ghost use Rattle.drawing.specs.declared.answer.Refusal.TheVariants.{TooMany};

#[derive(Clone, Copy, Debug, PartialEq, Eq)]
pub enum Refusal {
    // an invalid rectangle, cell, count or length
    Invalid,
    // a list over 256 after a single cut
    TooMany,
    // the output is shorter than the bytes
    ShortOutput,
}

// So `?` hands on that a list is over 256.
impl From<geometry::TooMany> for Refusal {
    ghost from_gives = { λ _ e. e ≡ TooMany };

    fn from(_over: geometry::TooMany) -> Refusal {
        Refusal::TooMany
    }
}

// What an accepted cut by a polygon reports.
#[derive(Clone, Copy)]
pub struct PolygonCut {
    // how many rectangles were written
    pub rects: usize,
    // how many cells were removed
    pub removed: u64,
}
