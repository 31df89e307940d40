// The cut of a list by a polygon, and the number of cells that it removes.
ghost use Rattle.std.specs.Prelude.{◌≡◌, true};
ghost use Rattle.polygons.specs.Limits.{most_of_polygon, most_pieces};
ghost use Rattle.area.specs.Removed.{removed};
ghost use Rattle.drawing.specs.Arguments.{given, is_list};
ghost use Rattle.drawing.specs.Answers.{Drawn};
ghost use Rattle.drawing.specs.Calls.{valid_with_polygon, cut_polygon_drawn};
ghost use Rattle.drawing.specs.PolygonCut.{PolygonCutDrawn};

use crate::answer::{PolygonCut, Refusal};
use crate::arguments::{accept, accept_lists, is_list};
use area::removed_cells;
use geometry::{MOST_OF_POLYGON, Polygon, Rects, WORK_NUMBERS, copy, cut_polygon, put_rects};

// The list cut by a polygon's rectangles, one after another.
fn cut_into(list: &[u32], polygon: &[u32], out: &mut [u32]) -> Result<usize, Refusal>
    ensures { Drawn (valid_with_polygon list.now polygon.now out.old)
        (cut_polygon_drawn list.now polygon.now) out.old result out.new }
{
    accept_lists(list, out)?;
    accept(is_list(polygon, MOST_OF_POLYGON))?;
    let n = list.len() / 4;
    let mut work = [0u32; WORK_NUMBERS];
    let mut spare = [0u32; WORK_NUMBERS];
    copy(list, 4 * n, &mut work);
    let p = Polygon::of_rects(Rects::new(polygon, polygon.len() / 4));
    let m = cut_polygon(&mut work, n, p, &mut spare)?;
    copy(&work, 4 * m, out);
    Ok(m)
}

// How many cells an accepted polygon removes from an accepted list, from both in one working list, the polygon first,
// since removed_cells reads them so.
fn removed_from(list: &[u32], polygon: &[u32]) -> u64
    requires list_value { is_list most_pieces list.now ≡ true }
    requires polygon_value { is_list most_of_polygon polygon.now ≡ true }
    ensures { result ≡ removed (given list.now) (given polygon.now) }
{
    let n = list.len() / 4;
    let mut work = [0u32; WORK_NUMBERS];
    let k = put_rects(&mut work, 0, Rects::new(polygon, polygon.len() / 4));
    put_rects(&mut work, k, Rects::new(list, n));
    removed_cells(&work, k, n)
}

// The list cut by a polygon's rectangles, and the number of cells removed, which is counted for an accepted cut only.
pub fn cut_by_polygon(list: &[u32], polygon: &[u32], out: &mut [u32]) -> Result<PolygonCut, Refusal>
    ensures { PolygonCutDrawn list.now polygon.now out.old result
        out.new }
{
    let rects = cut_into(list, polygon, out)?;
    Ok(PolygonCut {
        rects,
        removed: removed_from(list, polygon),
    })
}
