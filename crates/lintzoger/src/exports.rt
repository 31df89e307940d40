// The calls for C and Rust: 0 or the number of the refusal is returned, and the values are stored through pointers.
ghost use Rattle.geometry.specs.Cells.{cell_of, rect_of};
ghost use Rattle.plane.specs.Lines.{entry_of};
ghost use Rattle.lintzoger.specs.Exports.{InsertExported, RemoveExported, ClearExported, PointExported, WindowExported, NearestExported, EmptyExported};

use answers::Refusal;
use emptiness::is_empty;
use geometry::{Cell, Rect};
use insertion::insert;
use layout::Entry;
use nearest::nearest;
use queries::{point, window};
use removal::{clear, remove};

#[unsafe(no_mangle)]
pub extern "C" fn lintzoger_insert(
    index: &mut [u32],
    work: &mut [u32],
    x: u32,
    y: u32,
    tag: u32,
    held: &mut u32,
    removed: &mut u64,
) -> u32
    ensures { InsertExported index.old work.old (entry_of (cell_of x y) tag)
        held.old removed.old result
        index.new work.new held.new removed.new }
{
    let entry = Entry {
        cell: Cell { x, y },
        tag,
    };
    match insert(index, work, entry) {
        Ok(done) => {
            *held = done.held;
            *removed = done.removed;
            0
        }
        Err(refusal) => refusal.number(),
    }
}

#[unsafe(no_mangle)]
pub extern "C" fn lintzoger_remove(index: &mut [u32], x: u32, y: u32, held: &mut u32) -> u32
    ensures { RemoveExported index.old (cell_of x y) held.old result index.new
        held.new }
{
    match remove(index, Cell { x, y }) {
        Ok(n) => {
            *held = n;
            0
        }
        Err(refusal) => refusal.number(),
    }
}

#[unsafe(no_mangle)]
pub extern "C" fn lintzoger_clear(index: &mut [u32], held: &mut u32) -> u32
    ensures { ClearExported index.old held.old result index.new held.new }
{
    match clear(index) {
        Ok(n) => {
            *held = n;
            0
        }
        Err(refusal) => refusal.number(),
    }
}

#[unsafe(no_mangle)]
pub extern "C" fn lintzoger_point(
    index: &[u32],
    x: u32,
    y: u32,
    held: &mut u32,
    visits: &mut u32,
    tag: &mut u32,
) -> u32
    ensures { PointExported index.now (cell_of x y)
        held.old visits.old tag.old result
        held.new visits.new tag.new }
{
    match point(index, Cell { x, y }) {
        Ok(found) => {
            *held = found.tag.is_some() as u32;
            *visits = found.visits;
            if let Some(t) = found.tag {
                *tag = t;
            }
            0
        }
        Err(refusal) => refusal.number(),
    }
}

#[unsafe(no_mangle)]
pub extern "C" fn lintzoger_window(
    index: &[u32],
    llx: u32,
    lly: u32,
    urx: u32,
    ury: u32,
    list: &mut [u32],
    matches: &mut u32,
    visits: &mut u32,
) -> u32
    ensures { WindowExported index.now (rect_of llx lly urx ury)
        list.old matches.old visits.old result
        list.new matches.new visits.new }
{
    match window(index, Rect { llx, lly, urx, ury }, list) {
        Ok(found) => {
            *matches = found.matches;
            *visits = found.visits;
            0
        }
        Err(refusal) => {
            if let Refusal::ShortList { matches: m } = refusal {
                *matches = m;
            }
            refusal.number()
        }
    }
}

#[unsafe(no_mangle)]
pub extern "C" fn lintzoger_nearest(
    index: &[u32],
    x: u32,
    y: u32,
    near_x: &mut u32,
    near_y: &mut u32,
    tag: &mut u32,
    distance: &mut u64,
    visits: &mut u32,
) -> u32
    ensures { NearestExported index.now (cell_of x y)
        near_x.old near_y.old tag.old distance.old
        visits.old result
        near_x.new near_y.new tag.new distance.new visits.new }
{
    match nearest(index, Cell { x, y }) {
        Ok(found) => {
            *near_x = found.x;
            *near_y = found.y;
            *tag = found.tag;
            *distance = found.distance;
            *visits = found.visits;
            0
        }
        Err(refusal) => refusal.number(),
    }
}

#[unsafe(no_mangle)]
pub extern "C" fn lintzoger_is_empty(
    index: &[u32],
    llx: u32,
    lly: u32,
    urx: u32,
    ury: u32,
    empty: &mut u32,
    visits: &mut u32,
) -> u32
    ensures { EmptyExported index.now (rect_of llx lly urx ury)
        empty.old visits.old result empty.new visits.new }
{
    match is_empty(index, Rect { llx, lly, urx, ury }) {
        Ok(found) => {
            *empty = found.empty as u32;
            *visits = found.visits;
            0
        }
        Err(refusal) => refusal.number(),
    }
}
