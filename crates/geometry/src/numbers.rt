// Rectangles in a list of numbers, four each: llx, lly, urx, ury.
ghost use Rattle.std.specs.Prelude.{◌≡◌, ◌++◌, ◌+◌, ◌*◌, ◌≤◌, length, take, drop};
ghost use Rattle.geometry.specs.Cells.{all_valid};
ghost use Rattle.geometry.specs.Numbers.{rect_at, put_at, Appended};
ghost use Rattle.geometry.specs.Rects.{rects_left};

use crate::rect::Rect;
use crate::rects::Rects;

// The i-th rectangle of the list.
#[tactic(auto, unfolding(crate::specs::Numbers::rect_at))]
pub fn rect_at(list: &[u32], i: usize) -> Rect
    requires { 4 * i + 4 ≤ length list.now }
    ensures { result ≡ rect_at list.now i }
{
    let k = 4 * i;
    Rect {
        llx: list[k],
        lly: list[k + 1],
        urx: list[k + 2],
        ury: list[k + 3],
    }
}

// Writes the rectangle at the i-th place.
#[tactic(auto, unfolding(crate::specs::Numbers::put_at))]
pub fn put_rect(list: &mut [u32], i: usize, r: Rect)
    requires { 4 * i + 4 ≤ length list.old }
    ensures { list.new ≡ put_at list.old i r }
{
    let k = 4 * i;
    list[k] = r.llx;
    list[k + 1] = r.lly;
    list[k + 2] = r.urx;
    list[k + 3] = r.ury;
}

// Writes the rectangles behind the first n of a list; answers how many there are then.
pub fn put_rects(list: &mut [u32], n: usize, rects: Rects) -> usize
    requires { 4 * (n + length (rects_left rects)) ≤ length list.old }
    ensures { Appended list.old n (rects_left rects.entry) (length (rects_left rects.entry))
        list.new result }
{
    let mut m = n;
    for r in rects {
        put_rect(list, m, r);
        m += 1;
    }
    m
}

// Copies the first n numbers of a list to the start of another.
pub fn copy(from: &[u32], n: usize, to: &mut [u32])
    requires n_in_bounds { n ≤ length from.now }
    requires n_in_bounds_2 { n ≤ length to.old }
    ensures { to.new ≡ take n from.now ++ drop n to.old }
{
    // by places: of copy_from_slice the compiler makes a call of the C library's memmove, which the archives for C do not
    // ask for otherwise
    for i in 0..n {
        to[i] = from[i];
    }
}

// Whether the rectangles are valid.
pub fn all_valid(mut rects: Rects) -> bool
    ensures { result ≡ all_valid (rects_left rects.entry) }
{
    rects.all(|r| r.is_valid())
}
