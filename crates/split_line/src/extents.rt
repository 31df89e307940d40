// A list of the extents of a node's branches.
ghost use Rattle.std.specs.Prelude.{◌≤◌};

use geometry::Rect;

// A node has nine branches before it is split.
const MOST_EXTENTS: usize = 9;

// The first count of the rectangles are its list.
#[derive(Clone, Copy)]
pub struct Extents {
    rects: [Rect; MOST_EXTENTS],
    count: usize,
    pub ghost few: { count ≤ 9 },
}

impl Extents {
    ghost use Rattle.std.specs.Prelude.{◌≡◌, [], ◌∷◌, ◌++◌, ◌<◌, length};
    ghost use Rattle.split_line.specs.ExtentRow.{extents_of};

    // None.
    pub fn new() -> Extents
        ensures { extents_of result ≡ [] }
    {
        let none = Rect {
            llx: 0,
            lly: 0,
            urx: 0,
            ury: 0,
        };
        Extents {
            rects: [none; MOST_EXTENTS],
            count: 0,
        }
    }

    // Writes r behind the others.
    pub fn push(&mut self, r: Rect)
        requires { length (extents_of self.old) < 9 }
        ensures { extents_of self.new ≡ extents_of self.old ++ (r ∷ []) }
    {
        self.rects[self.count] = r;
        self.count += 1;
    }

    pub fn as_slice(&self) -> &[Rect]
        ensures { result.now ≡ extents_of self.now }
    {
        &self.rects[..self.count]
    }
}
