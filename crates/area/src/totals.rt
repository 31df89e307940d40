// The areas of a list.
ghost use Rattle.std.specs.Prelude.{◌≡◌, true, ◌≤◌, length};
ghost use Rattle.geometry.specs.Cells.{all_valid};
ghost use Rattle.geometry.specs.Rects.{rects_left};
ghost use Rattle.area.specs.Removed.{total_area};

use geometry::Rects;

// The sum of the areas of the rectangles: where they share no cell, the number of their cells.
pub fn total_area(rects: Rects) -> u64
    requires few { length (rects_left rects) ≤ 256 }
    requires rects_value { all_valid (rects_left rects) ≡ true }
    ensures { result ≡ total_area (rects_left rects.entry) }
{
    let mut sum: u64 = 0;
    for r in rects {
        sum += r.area();
    }
    sum
}
