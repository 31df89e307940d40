// The calls for C and Rust: each returns 0 or the number of its refusal, and stores what it reports through pointers.
ghost use Rattle.std.specs.Prelude.{◌≡◌};
ghost use Rattle.geometry.specs.declared.rect.Rect.{Rect};
ghost use Rattle.geometry.specs.Cells.{cell_of, rect_of};
ghost use Rattle.drawing.specs.Answers.{few, extra_of};
ghost use Rattle.drawing.specs.Calls.{valid_with_rect, valid_with_cell, valid_alone, valid_extra, common_drawn, grow_drawn, cut_drawn, refine_drawn, contains_answer, extra_drawn};
ghost use Rattle.drawing_c.specs.Exports.{refusal_number, number, reported, Exported, ContainsExported, PolygonCutExported, WkbExported};

use drawing::{
    Refusal, common, contains, cut, cut_by_polygon, extra_area, grow, refine, write_wkb,
};
use geometry::{Cell, Rect};

// Document 01's number of a refusal.
fn refusal_number(refusal: Refusal) -> u32
    ensures { result ≡ refusal_number refusal }
{
    match refusal {
        Refusal::Invalid => 3,
        Refusal::TooMany => 7,
        Refusal::ShortOutput => 11,
    }
}

// Stores an accepted count, and answers document 01's number.
fn report(answer: Result<usize, Refusal>, written: &mut u32) -> u32
    requires { few answer }
    ensures { (result ≡ number answer) × (written.new ≡ reported answer written.old) }
{
    match answer {
        Ok(n) => {
            *written = n as u32;
            0
        }
        Err(refusal) => refusal_number(refusal),
    }
}

#[unsafe(no_mangle)]
pub extern "C" fn lintzoger_refine(list: &[u32], res: &mut [u32], written: &mut u32) -> u32
    ensures { Exported (valid_alone list.now res.old) (refine_drawn list.now)
        res.old written.old result res.new written.new }
{
    report(refine(list, res), written)
}

#[unsafe(no_mangle)]
pub extern "C" fn lintzoger_cut_polygon(
    list: &[u32],
    polygon: &[u32],
    res: &mut [u32],
    written: &mut u32,
    removed: &mut u64,
) -> u32
    ensures { PolygonCutExported list.now polygon.now res.old
        written.old removed.old result res.new written.new
        removed.new }
{
    match cut_by_polygon(list, polygon, res) {
        Ok(cut) => {
            *written = cut.rects as u32;
            *removed = cut.removed;
            0
        }
        Err(refusal) => refusal_number(refusal),
    }
}

#[unsafe(no_mangle)]
pub extern "C" fn lintzoger_cut(
    list: &[u32],
    llx: u32,
    lly: u32,
    urx: u32,
    ury: u32,
    res: &mut [u32],
    written: &mut u32,
) -> u32
    ensures { Exported (valid_with_rect list.now (rect_of llx lly urx ury) res.old)
        (cut_drawn list.now (rect_of llx lly urx ury)) res.old written.old result
        res.new written.new }
{
    report(cut(list, Rect { llx, lly, urx, ury }, res), written)
}

#[unsafe(no_mangle)]
pub extern "C" fn lintzoger_common(
    list: &[u32],
    llx: u32,
    lly: u32,
    urx: u32,
    ury: u32,
    res: &mut [u32],
    written: &mut u32,
) -> u32
    ensures { Exported (valid_with_rect list.now (rect_of llx lly urx ury) res.old)
        (common_drawn list.now (rect_of llx lly urx ury)) res.old written.old result
        res.new written.new }
{
    report(common(list, Rect { llx, lly, urx, ury }, res), written)
}

#[unsafe(no_mangle)]
pub extern "C" fn lintzoger_grow(
    list: &[u32],
    x: u32,
    y: u32,
    res: &mut [u32],
    written: &mut u32,
) -> u32
    ensures { Exported (valid_with_cell list.now (cell_of x y) res.old)
        (grow_drawn list.now (cell_of x y)) res.old written.old result
        res.new written.new }
{
    report(grow(list, Cell { x, y }, res), written)
}

#[unsafe(no_mangle)]
pub extern "C" fn lintzoger_contains(
    polygon: &[u32],
    x: u32,
    y: u32,
    has: &mut u32,
    compared: &mut u32,
) -> u32
    ensures { ContainsExported (contains_answer polygon.now (cell_of x y)) has.old
        compared.old result has.new compared.new }
{
    match contains(polygon, Cell { x, y }) {
        Ok(t) => {
            *has = t.has as u32;
            *compared = t.compared as u32;
            0
        }
        Err(refusal) => refusal_number(refusal),
    }
}

#[unsafe(no_mangle)]
pub extern "C" fn lintzoger_wkb(polygon: &[u32], out: &mut [u8], length: &mut u32) -> u32
    ensures { WkbExported polygon.now out.old length.old result out.new
        length.new }
{
    match write_wkb(polygon, out) {
        Ok(n) => {
            *length = n as u32;
            0
        }
        Err(refusal) => refusal_number(refusal),
    }
}

#[unsafe(no_mangle)]
pub extern "C" fn lintzoger_extra_area(
    llx: u32,
    lly: u32,
    urx: u32,
    ury: u32,
    x: u32,
    y: u32,
    extra: &mut u64,
) -> u32
    ensures value { result ≡ number
        (extra_of (valid_extra (rect_of llx lly urx ury) (cell_of x y))
        (extra_drawn (rect_of llx lly urx ury) (cell_of x y))) }
    ensures extra_after { extra.new
        ≡ reported (extra_of (valid_extra (rect_of llx lly urx ury) (cell_of x y))
        (extra_drawn (rect_of llx lly urx ury) (cell_of x y))) extra.old }
{
    match extra_area(Rect { llx, lly, urx, ury }, Cell { x, y }) {
        Ok(n) => {
            *extra = n;
            0
        }
        Err(refusal) => refusal_number(refusal),
    }
}
