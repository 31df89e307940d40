// An insertion into a tree that does not hold the cell: the path, then the nodes on it in place, or the tree after
// anew.
ghost use Rattle.std.specs.Prelude.{◌≡◌, IfOk, Ok, length};
ghost use Rattle.geometry.specs.Numbers.{rect_at};
ghost use Rattle.memory.specs.Layout.{part, rect_numbers};
ghost use Rattle.layout.specs.Entries.{tree_entry};
ghost use Rattle.layout.specs.Nodes.{PartIn};
ghost use Rattle.path.specs.Path.{HasLevel};
ghost use Rattle.insertion.specs.Insert.{Inserting, PathReady, PathPlanned, PathFound, Built, BuiltInPlace};
ghost use Rattle.insertion.specs.Planning.{FullLevels};
ghost use Rattle.insertion.specs.Removed.{RemovedIs};

use crate::descent::descend;
use crate::growing::grow_path;
use crate::planning::{plan, split_count};
use answers::{Inserted, Refusal};
use geometry::{Cell, Polygon, Rect, TooMany, rect_at};
use layout::{Entry, MOST_PARTS, bits_set, part_at, part_count, put_tree, rects};
use path::Level;
use tree_after::{count_tree, write_tree};
use walks::entries_below;

// The first rectangle of the node at part k.
fn first_rect(m: &[u32], k: u32) -> Rect
    requires { PartIn m.now k }
    ensures { result ≡ rect_at (rect_numbers (part m.now k)) 0 }
{
    rect_at(rects(part_at(m, k)), 0)
}

// Steps 1 to 3: the path from the root, whose rectangle grows to the cell, down to the leaf, and how many cells
// siblings removed on the way, or refusal 7.
fn find_path(m: &[u32], level: u32, root: u32, c: Cell, path: &mut [Level]) -> Result<u64, TooMany>
    requires inserting { Inserting m.now level root c }
    requires has_level { HasLevel level path.old }
    ensures path_found { PathFound m.now level c path.new result }
    ensures removed_found { IfOk result (λ r. RemovedIs m.now c r) }
    ensures path_len_unchanged { length path.new ≡ length path.old }
{
    let r = first_rect(m, root);
    path[level as usize] = Level::of(root, Polygon::of(r.grow(c)));
    descend(m, level, c, path, 0)
}

// The end of an insertion that splits no node and removed so many cells: the nodes on the path are written in place.
fn insert_in_place(
    m: &mut [u32],
    path: &[Level],
    level: u32,
    root: u32,
    e: Entry,
    removed: u64,
) -> Inserted
    requires inserting { Inserting m.old level root e.cell }
    requires path_ready { PathReady m.old level e.cell path.now }
    requires full_levels { FullLevels level path.now m.old 0 }
    requires removed_is { RemovedIs m.old e.cell removed }
    ensures { BuiltInPlace m.old (tree_entry e) m.new (Ok result) }
{
    let held = entries_below(m, level, 0, root);
    grow_path(m, path, level, e);
    Inserted {
        held: held + 1,
        removed,
    }
}

// The end of an insertion that splits nodes: the tree after is written to the work area and copied back.
fn insert_anew(
    m: &mut [u32],
    work: &mut [u32],
    path: &[Level],
    level: u32,
    root: u32,
    e: Entry,
    removed: u64,
) -> Result<Inserted, Refusal>
    requires inserting { Inserting m.old level root e.cell }
    requires path_planned { PathPlanned m.old level e.cell path.now }
    requires work_len { length work.old ≡ length m.old }
    requires removed_is { RemovedIs m.old e.cell removed }
    ensures { Built m.old work.old (tree_entry e) m.new work.new result }
{
    let room = part_count(m);
    if room < count_tree(m, path, level, e) {
        return Err(Refusal::TooManyNodes);
    }
    let held = entries_below(m, level, 0, root);
    let done = write_tree(m, path, level, e, work);
    put_tree(m, work, done.parts, done.height);
    Ok(Inserted {
        held: held + 1,
        removed,
    })
}

// The insertion of a cell that the tree does not hold, on a path with room for each level. The work area is left to be
// zeroed.
fn insert_on_path(
    m: &mut [u32],
    work: &mut [u32],
    level: u32,
    root: u32,
    e: Entry,
    path: &mut [Level],
) -> Result<Inserted, Refusal>
    requires inserting { Inserting m.old level root e.cell }
    requires work_len { length work.old ≡ length m.old }
    requires has_level { HasLevel level path.old }
    ensures { Built m.old work.old (tree_entry e) m.new work.new result }
{
    let c = e.cell;
    let removed = find_path(m, level, root, c, path)?;
    let splits = split_count(m, path, level);
    if splits == 0 {
        return Ok(insert_in_place(m, path, level, root, e, removed));
    }
    // each split adds a node at least, so 8 is found before the lines and the tree after
    if part_count(m) < bits_set(m) + splits {
        return Err(Refusal::TooManyNodes);
    }
    plan(m, level, splits, c, path);
    insert_anew(m, work, path, level, root, e, removed)
}

// What stands at a level before the path comes to it.
fn blank() -> Level {
    let nowhere = Rect {
        llx: 0,
        lly: 0,
        urx: 0,
        ury: 0,
    };
    Level::of(0, Polygon::of(nowhere))
}

// The same with a path for any tree. It is not inlined: its long path would be cleared for low trees too.
#[inline(never)]
fn insert_deep(
    m: &mut [u32],
    work: &mut [u32],
    level: u32,
    root: u32,
    e: Entry,
) -> Result<Inserted, Refusal>
    requires inserting { Inserting m.old level root e.cell }
    requires work_len { length work.old ≡ length m.old }
    ensures { Built m.old work.old (tree_entry e) m.new work.new result }
{
    let mut path = [blank(); MOST_PARTS];
    insert_on_path(m, work, level, root, e, &mut path)
}

// The same with a path of the tree's height: few trees have more than 16 levels.
pub fn insert_new(
    m: &mut [u32],
    work: &mut [u32],
    level: u32,
    root: u32,
    e: Entry,
) -> Result<Inserted, Refusal>
    requires inserting { Inserting m.old level root e.cell }
    requires work_len { length work.old ≡ length m.old }
    ensures { Built m.old work.old (tree_entry e) m.new work.new result }
{
    if level < 16 {
        let mut path = [blank(); 16];
        return insert_on_path(m, work, level, root, e, &mut path);
    }
    insert_deep(m, work, level, root, e)
}
