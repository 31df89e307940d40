// The containment test: whether a list of rectangles has a cell, and how many rectangles were compared to tell.
ghost use Rattle.std.specs.Prelude.{◌≡◌, ◌+◌, ◌<◌, true, false, IfSome, MatchOption};
ghost use Rattle.geometry.specs.Containment.{containment};
ghost use Rattle.geometry.specs.Rects.{rects_left};

use crate::rect::Cell;
use crate::rects::Rects;

// What the containment test reports. No Option: both fields mean something, whether a rectangle has the cell or not.
#[derive(Clone, Copy, Debug, PartialEq, Eq)]
pub struct Containment {
    // some rectangle has the cell
    pub has: bool,
    // up to and with the first that has the cell, or all if none has it
    pub compared: usize,
}

impl Containment {
    // From the place of the first of n rectangles that has the cell, if one has it.
    pub fn at(place: Option<usize>, n: usize) -> Containment
        requires { IfSome place (λ i. i < n) }
        ensures { MatchOption place ((result.has ≡ false) × (result.compared ≡ n))
            (λ i. (result.has ≡ true) × (result.compared ≡ i + 1)) }
    {
        match place {
            Some(i) => Containment {
                has: true,
                compared: i + 1,
            },
            None => Containment {
                has: false,
                compared: n,
            },
        }
    }
}

// Compares the rectangles with the cell, one after another, and ends at the first that has it.
pub fn contains(mut rects: Rects, c: Cell) -> Containment
    ensures { result ≡ containment (rects_left rects.entry) c }
{
    let n = rects.len();
    Containment::at(rects.position(|r| r.has_cell(c)), n)
}
