// A polygon by value: a list of 1 to 16 rectangles, whose cells are their union.
ghost use Rattle.std.specs.Prelude.{◌≤◌};

use crate::containment::Containment;
use crate::limits::MOST_OF_POLYGON;
use crate::numbers::put_rect;
use crate::rect::{Cell, Rect, Side};
use crate::rects::Rects;

// The first count of the rectangles are its list.
#[derive(Clone, Copy)]
pub struct Polygon {
    pub rects: [Rect; MOST_OF_POLYGON],
    pub count: usize,
    pub ghost few: { count ≤ 16 },
}

impl Polygon {
    ghost use Rattle.std.specs.Prelude.{◌≡◌, [], ◌∷◌, ◌++◌, ◌+◌, ◌<◌, length};
    ghost use Rattle.geometry.specs.Clip.{clip};
    ghost use Rattle.geometry.specs.Containment.{containment};
    ghost use Rattle.geometry.specs.Numbers.{rects_of, Appended, PolygonOf};
    ghost use Rattle.geometry.specs.Rects.{rects_left};

    // The polygon of one rectangle.
    pub fn of(r: Rect) -> Polygon
        ensures { PolygonOf (r ∷ []) result }
    {
        Polygon {
            rects: [r; MOST_OF_POLYGON],
            count: 1,
        }
    }

    // The polygon of the rectangles.
    pub fn of_rects(rects: Rects) -> Polygon
        requires { length (rects_left rects) ≤ 16 }
        ensures { PolygonOf (rects_left rects.entry) result }
    {
        let none = Rect {
            llx: 0,
            lly: 0,
            urx: 0,
            ury: 0,
        };
        let mut p = Polygon {
            rects: [none; MOST_OF_POLYGON],
            count: 0,
        };
        for r in rects {
            p.push(r);
        }
        p
    }

    // Writes r behind its rectangles.
    fn push(&mut self, r: Rect)
        requires { self.old.count < 16 }
        ensures list { rects_of self.new ≡ rects_of self.old ++ (r ∷ []) }
        ensures count { self.new.count ≡ self.old.count + 1 }
    {
        self.rects[self.count] = r;
        self.count += 1;
    }

    // Writes the polygon's rectangles to the start of a list of numbers.
    pub fn store(self, list: &mut [u32])
        requires { 64 ≤ length list.old }
        ensures { Appended list.old 0 (rects_of self) 16 list.new self.count }
    {
        for (i, r) in self.rects[..self.count].iter().enumerate() {
            put_rect(list, i, *r);
        }
    }

    // Compares its rectangles with the cell, one after another, and ends at the first that has it.
    pub fn contains(self, c: Cell) -> Containment
        ensures { result ≡ containment (rects_of self) c }
    {
        let place = self.rects[..self.count].iter().position(|r| r.has_cell(c));
        Containment::at(place, self.count)
    }

    // Its rectangles clipped to a side of a line, in order, empty ones left out.
    pub fn clip(self, side: Side) -> Polygon
        ensures { PolygonOf (clip side (rects_of self)) result }
    {
        let mut out = Polygon {
            rects: self.rects,
            count: 0,
        };
        for r in &self.rects[..self.count] {
            let part = r.side_part(side);
            if !part.is_empty() {
                out.push(part);
            }
        }
        out
    }
}
