// A polygon with pieces in place of one rectangle, refined.
ghost use Rattle.std.specs.Prelude.{◌++◌, ◌+◌, ◌≤◌, ◌<◌, length};
ghost use Rattle.geometry.specs.Numbers.{Appended, Written};
ghost use Rattle.geometry.specs.Rects.{rects_left};
ghost use Rattle.memory.specs.Layout.{part, rect_count, polygon_in};
ghost use Rattle.layout.specs.Nodes.{PolygonPart};
ghost use Rattle.choose_branch.specs.Pieces.{replaced, refined_limited};

use geometry::{MOST_OF_POLYGON, Rects, TooMany, put_rects};
use layout::{part_at, rect_count, rects};
use refinement::refine_list;

// Writes the pieces between a polygon's rectangles before and after the one they replace.
fn put_replaced(list: &mut [u32], before: Rects, pieces: Rects, after: Rects) -> usize
    requires few { length (rects_left before) + length (rects_left after) ≤ 15 }
    requires pieces_few { length (rects_left pieces) ≤ 256 }
    requires in_bounds { 1088 ≤ length list.old }
    ensures { Appended list.old 0
        (rects_left before.entry ++ (rects_left pieces.entry ++ rects_left after.entry)) 271
        list.new result }
{
    let a = put_rects(list, 0, before);
    let b = put_rects(list, a, pieces);
    put_rects(list, b, after)
}

// The same, refined: over where more than 16 remain.
fn put_refined(
    list: &mut [u32],
    before: Rects,
    pieces: Rects,
    after: Rects,
) -> Result<usize, TooMany>
    requires few { length (rects_left before) + length (rects_left after) ≤ 15 }
    requires pieces_few { length (rects_left pieces) ≤ 256 }
    requires in_bounds { 1088 ≤ length list.old }
    ensures { Written list.old
        (refined_limited (rects_left before.entry ++ (rects_left pieces.entry ++ rects_left after.entry)))
        result list.new }
{
    let all = put_replaced(list, before, pieces, after);
    let remaining = refine_list(list, all);
    if MOST_OF_POLYGON < remaining {
        return Err(TooMany);
    }
    Ok(remaining)
}

// Writes the polygon at part j with the pieces in place of its rect-th rectangle, refined.
pub fn put_polygon(
    m: &[u32],
    j: u32,
    rect: usize,
    list: &mut [u32],
    pieces: Rects,
) -> Result<usize, TooMany>
    requires polygon_part { PolygonPart m.now j }
    requires rect_bound { rect < rect_count (part m.now j) }
    requires pieces_few { length (rects_left pieces) ≤ 256 }
    requires in_bounds { 1088 ≤ length list.old }
    ensures { Written list.old
        (refined_limited (replaced (polygon_in (part m.now j)) rect (rects_left pieces.entry)))
        result list.new }
{
    let p = part_at(m, j);
    let numbers = rects(p);
    let before = Rects::new(numbers, rect);
    let after = Rects::between(numbers, rect + 1, rect_count(p) as usize);
    put_refined(list, before, pieces, after)
}
