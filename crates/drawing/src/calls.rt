// The calls: each tests its arguments, works in a list of its own, and writes only an accepted result.
ghost use Rattle.std.specs.Prelude.{◌≡◌, true, map, ◌++◌, ◌*◌, ◌≤◌, length, drop};
ghost use Rattle.geometry.specs.Cells.{on_grid};
ghost use Rattle.geometry.specs.Numbers.{rects_in, numbers_of};
ghost use Rattle.drawing.specs.Answers.{Drawn, RefinedInto, extra_of};
ghost use Rattle.drawing.specs.Calls.{grown_to, valid_with_rect, valid_with_cell, valid_alone, valid_extra, common_drawn, grow_drawn, cut_drawn, refine_drawn, extra_drawn};

use crate::answer::Refusal;
use crate::arguments::{RESULT_NUMBERS, accept, accept_lists};
use area::extra_of_one;
use geometry::{
    Cell, MOST_OF_POLYGON, Polygon, Rect, Rects, WORK_NUMBERS, common_parts, copy, cut_list,
    put_rect, rect_at,
};
use refinement::refine_list;

// The part of each rectangle that it shares with one rectangle, where it shares any.
pub fn common(list: &[u32], r: Rect, out: &mut [u32]) -> Result<usize, Refusal>
    ensures { Drawn (valid_with_rect list.now r out.old) (common_drawn list.now r)
        out.old result out.new }
{
    accept_lists(list, out)?;
    accept(r.is_valid())?;
    let mut work = [0u32; WORK_NUMBERS];
    // it does not end here: there are no more parts than rectangles
    let m = common_parts(Rects::new(list, list.len() / 4), Polygon::of(r), &mut work)?;
    copy(&work, 4 * m, out);
    Ok(m)
}

// Writes each of the first n rectangles of a list, grown to a cell, to another list.
fn put_grown(list: &[u32], n: usize, c: Cell, out: &mut [u32])
    requires n_in_bounds { 4 * n ≤ length list.now }
    requires n_in_bounds_2 { 4 * n ≤ length out.old }
    requires c_value { on_grid c ≡ true }
    ensures { out.new ≡ numbers_of (map (grown_to c) (rects_in list.now n))
        ++ drop (4 * n) out.old }
{
    for i in 0..n {
        put_rect(out, i, rect_at(list, i).grow(c));
    }
}

// Each rectangle grown to a cell.
pub fn grow(list: &[u32], c: Cell, out: &mut [u32]) -> Result<usize, Refusal>
    ensures { Drawn (valid_with_cell list.now c out.old) (grow_drawn list.now c)
        out.old result out.new }
{
    accept_lists(list, out)?;
    accept(c.on_grid())?;
    let n = list.len() / 4;
    put_grown(list, n, c, out);
    Ok(n)
}

// The extra area of a rectangle, taken as a polygon of one, that grows to take a cell in.
pub fn extra_area(r: Rect, c: Cell) -> Result<u64, Refusal>
    ensures { result ≡ extra_of (valid_extra r c) (extra_drawn r c) }
{
    accept(r.is_valid())?;
    accept(c.on_grid())?;
    Ok(extra_of_one(r, c))
}

// The list cut by a rectangle.
pub fn cut(list: &[u32], s: Rect, out: &mut [u32]) -> Result<usize, Refusal>
    ensures { Drawn (valid_with_rect list.now s out.old) (cut_drawn list.now s)
        out.old result out.new }
{
    accept_lists(list, out)?;
    accept(s.is_valid())?;
    let mut work = [0u32; WORK_NUMBERS];
    let m = cut_list(Rects::new(list, list.len() / 4), s, &mut work)?;
    copy(&work, 4 * m, out);
    Ok(m)
}

// Refines the first n rectangles of a list in a working list, and writes the result.
fn refine_in(list: &[u32], n: usize, work: &mut [u32], out: &mut [u32]) -> usize
    requires n_in_bounds { 4 * n ≤ length list.now }
    requires n_in_bounds_2 { 4 * n ≤ length work.old }
    requires n_in_bounds_3 { 4 * n ≤ length out.old }
    ensures refined_into { RefinedInto list.now n out.old result out.new }
    ensures work_len_unchanged { length work.new ≡ length work.old }
{
    copy(list, 4 * n, work);
    let m = refine_list(work, n);
    copy(work, 4 * m, out);
    m
}

// The list refined; a short one in a short working list, which is sooner cleared.
pub fn refine(list: &[u32], out: &mut [u32]) -> Result<usize, Refusal>
    ensures { Drawn (valid_alone list.now out.old) (refine_drawn list.now)
        out.old result out.new }
{
    accept_lists(list, out)?;
    let n = list.len() / 4;
    if n <= MOST_OF_POLYGON {
        let mut short = [0u32; 64];
        Ok(refine_in(list, n, &mut short, out))
    } else {
        let mut work = [0u32; RESULT_NUMBERS];
        Ok(refine_in(list, n, &mut work, out))
    }
}
