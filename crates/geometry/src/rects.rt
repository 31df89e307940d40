// The rectangles of a list of numbers, one after another.
ghost use Rattle.std.specs.Prelude.{◌≡◌, ◌*◌, ◌≤◌, drop, length};
ghost use Rattle.std.specs.Iterator.{YieldsFirst, item_count};
ghost use Rattle.geometry.specs.Numbers.{rects_in};
ghost use Rattle.geometry.specs.Rects.{rects_left};

use crate::rect::Rect;

// The rectangles of the numbers that are left, four each.
#[derive(Clone, Copy)]
pub struct Rects<'a> {
    left: &'a [u32],
}

impl<'a> Iterator for Rects<'a> {
    type Item = Rect;

    ghost next_gives = { YieldsFirst rects_left };

    ghost remaining = { item_count rects_left };

    #[tactic(auto, using(crate::proofs::RectsLaws::one_step))]
    fn next(&mut self) -> Option<Rect> {
        let [llx, lly, urx, ury, rest @ ..] = self.left else {
            return None;
        };
        self.left = rest;
        Some(Rect {
            llx: *llx,
            lly: *lly,
            urx: *urx,
            ury: *ury,
        })
    }
}

impl<'a> Rects<'a> {
    // The first n rectangles of the list.
    pub fn new(list: &'a [u32], n: usize) -> Rects<'a>
        requires { 4 * n ≤ length list.now }
        ensures { rects_left result ≡ rects_in list.now n }
    {
        Rects {
            left: &list[..4 * n],
        }
    }

    // The rectangles of the list from the given one up to before the e-th.
    pub fn between(list: &'a [u32], from: usize, e: usize) -> Rects<'a>
        requires from_le_e { from ≤ e }
        requires e_in_bounds { 4 * e ≤ length list.now }
        ensures { rects_left result ≡ drop from (rects_in list.now e) }
    {
        Rects {
            left: &list[4 * from..4 * e],
        }
    }

    // How many rectangles are left.
    pub fn len(self) -> usize
        ensures { result ≡ length (rects_left self.entry) }
    {
        self.left.len() / 4
    }
}
