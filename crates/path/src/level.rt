// A level of the path.
ghost use Rattle.std.specs.Prelude.{◌≡◌};
ghost use Rattle.path.specs.Level.{level_of};

use geometry::{Line, Polygon};

// The node on the path at a level: its part, the place among its branches of the one gone to, the line that splits it,
// None where it is not split, and its polygon, as grown.
#[derive(Clone, Copy)]
pub struct Level {
    pub part: u32,
    pub place: u32,
    pub line: Option<Line>,
    pub polygon: Polygon,
}

impl Level {
    // The level of a node that is not split so far, and from which the path does not go on so far.
    pub fn of(part: u32, polygon: Polygon) -> Level
        ensures { result ≡ level_of part polygon }
    {
        Level {
            part,
            place: 0,
            line: None,
            polygon,
        }
    }
}
