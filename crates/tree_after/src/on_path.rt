// What is on the path, written under sides: the leaf with the new entry, the nodes above it, and the whole tree.
ghost use Rattle.std.specs.Prelude.{◌≡◌, [], ◌∷◌, ◌+◌, ◌-◌, ◌≤◌, suc, length, drop, Some};
ghost use Rattle.layout.specs.Entries.{tree_entry};
ghost use Rattle.split_line.specs.Sides.{sides_of};
ghost use Rattle.path.specs.Path.{place_on, polygon_on, line_on};
ghost use Rattle.tree_after.specs.Writes.{Writes, Room};
ghost use Rattle.tree_after.specs.Sides.{SidesRoom, SidesKept};
ghost use Rattle.tree_after.specs.Path.{PathNode, half_under, PathFrom, cut_under, planned_tree};
ghost use Rattle.tree_after.specs.Rows.{PathStep, Grows, RestWritten, RestRoom, no_branches, before_on, behind_on};
ghost use Rattle.tree_after.specs.Whole.{TreeRoom, TreeWritten};

use crate::leaf::gather_with;
use crate::node::{Branches, write_node};
use crate::off_path::write_branches;
use crate::sides::{MOST_SIDES, NO_SIDE};
use geometry::{Line, Side};
use layout::{Entry, count_at, part_at};
use path::Level;

// Writes what remains of the leaf on the path, with the new entry; answers the next free part.
pub fn write_path_leaf(
    m: &[u32],
    path: &[Level],
    sides: &[Side],
    e: Entry,
    work: &mut [u32],
    next: u32,
) -> u32
    requires path_node { PathNode 0 path.now m.now }
    requires room { Room 0 work.old next (half_under 0 path.now m.now (tree_entry e) (sides_of sides.now)) }
    ensures { Writes 0 work.old next
        (half_under 0 path.now m.now (tree_entry e) (sides_of sides.now))
        work.new result }
{
    let leaf = gather_with(part_at(m, path[0].part), sides, e);
    write_node(path[0].polygon, leaf, sides, work, next)
}

// Writes what remains of the branches before the place of the path at a level.
fn write_before(
    m: &[u32],
    path: &[Level],
    level: u32,
    sides: &[Side],
    work: &mut [u32],
    next: u32,
) -> Branches
    requires path_step { PathStep level path.now m.now }
    requires room { Room (level - 1) work.old next (before_on level path.now m.now sides.now) }
    ensures { Grows (level - 1) work.old (no_branches next)
        (before_on level path.now m.now sides.now) work.new result }
{
    let k = path[level as usize].part;
    let place = path[level as usize].place as usize;
    let branches = Branches::none(next);
    write_branches(m, level - 1, k, 0, place, sides, work, branches)
}

// Writes what remains of the branches behind the place of the path at a level, then its node; answers the next free
// part.
fn write_rest(
    m: &[u32],
    path: &[Level],
    level: u32,
    sides: &[Side],
    work: &mut [u32],
    branches: Branches,
) -> u32
    requires path_step { PathStep level path.now m.now }
    requires count_bound { branches.node.count ≤ place_on path.now level + 2 }
    requires rest_room { RestRoom (level - 1) sides.now (behind_on level path.now m.now sides.now)
        work.old branches }
    ensures { RestWritten (level - 1) (polygon_on path.now level) sides.now
        (behind_on level path.now m.now sides.now) work.old branches
        work.new result }
{
    let n = level as usize;
    let k = path[n].part;
    let from = (path[n].place as usize) + 1;
    let to = count_at(m, k) as usize;
    let all = write_branches(m, level - 1, k, from, to, sides, work, branches);
    write_node(path[n].polygon, all.node, sides, work, all.next)
}

// Writes what remains under the sides of the node on the path at a level, with all below it and the new entry in its
// leaf; answers the next free part. A node on the path that is split is written once for each side of its line. The
// sides are those of the list from the place `at` on; the places before it serve the levels below.
#[tactic(auto, using(crate::proofs::PathLaws::path_room))]
pub fn write_half(
    m: &[u32],
    path: &[Level],
    level: u32,
    sides: &mut [Side],
    at: usize,
    e: Entry,
    work: &mut [u32],
    next: u32,
) -> u32
    requires path_from { PathFrom level path.now m.now }
    requires sides_room { SidesRoom level sides.old at }
    requires room { Room level work.old next
        (half_under level path.now m.now (tree_entry e) (sides_of (drop at sides.old))) }
    ensures writes { Writes level work.old next
        (half_under level path.now m.now (tree_entry e) (sides_of (drop at sides.old)))
        work.new result }
    ensures sides_kept { SidesKept sides.old at sides.new }
{
    if level == 0 {
        return write_path_leaf(m, path, &sides[at..], e, work, next);
    }
    let before = write_before(m, path, level, &sides[at..], work, next);
    let below = level - 1;
    let Some(line) = path[below as usize].line else {
        let after = write_half(m, path, below, sides, at, e, work, before.next);
        let branches = before.with_branch(after);
        return write_rest(m, path, level, &sides[at..], work, branches);
    };
    let front = at - 1;
    sides[front] = Side::Left(line);
    let middle = write_half(m, path, below, sides, front, e, work, before.next);
    let left = before.with_branch(middle);
    sides[front] = Side::Right(line);
    let after = write_half(m, path, below, sides, front, e, work, left.next);
    let branches = left.with_branch(after);
    write_rest(m, path, level, &sides[at..], work, branches)
}

// How many parts were written, the last of which is the root's, and the height of the tree.
#[derive(Clone, Copy)]
pub struct Written {
    pub parts: u32,
    pub height: u32,
}

// Writes the two halves of a root that is split at a line, and a new root on top of them with the same polygon;
// answers how many parts. The list is for the sides.
fn write_split(
    m: &[u32],
    path: &[Level],
    level: u32,
    line: Line,
    sides: &mut [Side],
    e: Entry,
    work: &mut [u32],
) -> u32
    requires path_from { PathFrom level path.now m.now }
    requires level_bound { level ≤ 255 }
    requires line_is { line_on path.now level ≡ Some line }
    requires sides_len { length sides.old ≡ 257 }
    requires rest_room { RestRoom level [] (cut_under level path.now m.now (tree_entry e) (sides_of []))
        work.old (no_branches 0) }
    ensures { Writes (suc level) work.old 0
        (record {
          poly = polygon_on path.now level;
          child = cut_under level path.now
              m.now (tree_entry e) [];
        } ∷ []) work.new result }
{
    let branches = Branches::none(0);
    let front = MOST_SIDES - 1;
    sides[front] = Side::Left(line);
    let middle = write_half(m, path, level, sides, front, e, work, 0);
    let left = branches.with_branch(middle);
    sides[front] = Side::Right(line);
    let after = write_half(m, path, level, sides, front, e, work, left.next);
    let both = left.with_branch(after);
    let no_sides: [Side; 0] = [];
    write_node(
        path[level as usize].polygon,
        both.node,
        &no_sides,
        work,
        both.next,
    )
}

// Writes the tree after into the parts of the work area from the first on.
#[tactic(auto, using(crate::proofs::PathLaws::path_has))]
pub fn write_tree(m: &[u32], path: &[Level], level: u32, e: Entry, work: &mut [u32]) -> Written
    requires path_from { PathFrom level path.now m.now }
    requires level_bound { level ≤ 255 }
    requires tree_room { TreeRoom work.old (planned_tree level path.now m.now (tree_entry e)) }
    ensures { TreeWritten work.old
        (planned_tree level path.now m.now (tree_entry e)) work.new result }
{
    let mut sides = [NO_SIDE; MOST_SIDES];
    match path[level as usize].line {
        None => Written {
            parts: write_half(m, path, level, &mut sides, MOST_SIDES, e, work, 0),
            height: level + 1,
        },
        Some(line) => Written {
            parts: write_split(m, path, level, line, &mut sides, e, work),
            height: level + 2,
        },
    }
}
