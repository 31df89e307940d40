// How many nodes the tree after has, counted up to 257: no memory has more than 256.
ghost use Rattle.std.specs.Prelude.{◌≡◌, ◌+◌, ◌≤◌, min, suc, ◌-◌, drop};
ghost use Rattle.std.proofs.Math.Option.{some};
ghost use Rattle.tree.specs.Tree.{node_count};
ghost use Rattle.plane.specs.Fanout.{index_space};
ghost use Rattle.layout.specs.Nodes.{NodePart, count_at};
ghost use Rattle.layout.specs.Entries.{tree_entry};
ghost use Rattle.walks.specs.Walks.{Walkable};
ghost use Rattle.split_line.specs.Sides.{sides_of};
ghost use Rattle.tree_after.specs.Writes.{count_limit, counted, deep_at};
ghost use Rattle.tree_after.specs.Leaves.{leaf_under};
ghost use Rattle.tree_after.specs.Rows.{PathStep, range_under, before_on, behind_on, node_parts};
ghost use Rattle.tree_after.specs.Sides.{SidesRoom, SidesKept};
ghost use Rattle.tree_after.specs.Path.{PathNode, PathFrom, half_under, planned_tree};

use crate::leaf::{any_remaining, gather_with};
use crate::node::is_kept;
use crate::sides::{MOST_SIDES, NO_SIDE};
use geometry::Side;
use layout::{Entry, children_at, count_at, part_at};
use path::Level;

// The most that is counted: one more than any memory has.
const COUNT_LIMIT: u32 = 257;

// The sum of two counts; the limit where it is more.
pub fn capped_sum(a: u32, b: u32) -> u32
    requires a_le_count_limit { a ≤ count_limit }
    requires b_le_count_limit { b ≤ count_limit }
    ensures { result ≡ min count_limit (a + b) }
{
    (a + b).min(COUNT_LIMIT)
}

// How many nodes remain of a leaf under the sides: one, or none where it is dropped.
fn count_leaf(p: &[u32], sides: &[Side]) -> u32
    requires { NodePart p.now }
    ensures { result ≡ counted 0 (leaf_under sides.now p.now) }
{
    if sides.len() == 0 {
        return 1;
    }
    if any_remaining(p, sides) { 1 } else { 0 }
}

// How many nodes remain of the subtree at part k under the sides.
pub fn count_below(m: &[u32], level: u32, lo: u32, k: u32, sides: &[Side]) -> u32
    requires { Walkable level m.now lo k }
    ensures { result ≡ counted level (deep_at level m.now lo k sides.now) }
{
    if level == 0 {
        return count_leaf(part_at(m, k), sides);
    }
    let mut nodes: u32 = 0;
    let mut low = lo;
    for &part in children_at(m, k) {
        let below = count_below(m, level - 1, low, part, sides);
        nodes = capped_sum(nodes, below);
        low = part + 1;
    }
    count_node(sides, nodes)
}

// How many nodes remain of the branches of the node at part k, from one place up to another, with those counted
// before; level is that of the branches.
fn count_branches(
    m: &[u32],
    level: u32,
    k: u32,
    from: usize,
    to: usize,
    sides: &[Side],
    start: u32,
) -> u32
    requires walkable { Walkable (suc level) m.now 0 k }
    requires from_le_to { from ≤ to }
    requires to_bound { to ≤ count_at m.now k }
    requires start_le_count_limit { start ≤ count_limit }
    ensures { result ≡ min count_limit
        (start + counted level (range_under level m.now k from to sides.now)) }
{
    let mut nodes = start;
    for &part in &children_at(m, k)[from..to] {
        let below = count_below(m, level, 0, part, sides);
        nodes = capped_sum(nodes, below);
    }
    nodes
}

// How many nodes remain of the branches before and behind the place of the path at a level.
pub fn count_others(m: &[u32], path: &[Level], level: u32, sides: &[Side]) -> u32
    requires { PathStep level path.now m.now }
    ensures { result ≡ min count_limit
        (counted (level - 1) (before_on level path.now m.now sides.now) + counted
        (level - 1) (behind_on level path.now m.now sides.now)) }
{
    let k = path[level as usize].part;
    let place = path[level as usize].place as usize;
    let to = count_at(m, k) as usize;
    let before = count_branches(m, level - 1, k, 0, place, sides, 0);
    count_branches(m, level - 1, k, place + 1, to, sides, before)
}

// How many nodes a node has with those below it: none where it is dropped.
fn count_node(sides: &[Side], nodes: u32) -> u32
    requires { nodes ≤ count_limit }
    ensures { result ≡ min count_limit (nodes + node_parts sides.now nodes) }
{
    if is_kept(sides, nodes) {
        return capped_sum(nodes, 1);
    }
    nodes
}

// How many nodes remain of the leaf on the path, with the new entry: one or none.
fn count_path_leaf(m: &[u32], path: &[Level], sides: &[Side], e: Entry) -> u32
    requires { PathNode 0 path.now m.now }
    ensures { result ≡ counted 0 (half_under 0 path.now m.now (tree_entry e)
        (sides_of sides.now)) }
{
    let leaf = gather_with(part_at(m, path[0].part), sides, e);
    if is_kept(sides, leaf.count) { 1 } else { 0 }
}

// How many nodes remain of the node on the path at a level, with all below it, under the sides: those of the list from
// the place `at` on. The places before it serve the levels below.
#[tactic(auto, using(crate::proofs::PathLaws::path_room))]
pub fn count_half(
    m: &[u32],
    path: &[Level],
    level: u32,
    sides: &mut [Side],
    at: usize,
    e: Entry,
) -> u32
    requires path_from { PathFrom level path.now m.now }
    requires sides_room { SidesRoom level sides.old at }
    ensures value { result ≡ counted level
        (half_under level path.now m.now (tree_entry e) (sides_of (drop at sides.old))) }
    ensures sides_kept { SidesKept sides.old at sides.new }
{
    if level == 0 {
        return count_path_leaf(m, path, &sides[at..], e);
    }
    let beside = count_others(m, path, level, &sides[at..]);
    let below = level - 1;
    let Some(line) = path[below as usize].line else {
        let whole = count_half(m, path, below, sides, at, e);
        return count_node(&sides[at..], capped_sum(beside, whole));
    };
    let front = at - 1;
    sides[front] = Side::Left(line);
    let left = count_half(m, path, below, sides, front, e);
    sides[front] = Side::Right(line);
    let right = count_half(m, path, below, sides, front, e);
    let halves = capped_sum(left, right);
    count_node(&sides[at..], capped_sum(beside, halves))
}

// How many nodes the tree after has.
#[tactic(auto, using(crate::proofs::PathLaws::path_has))]
pub fn count_tree(m: &[u32], path: &[Level], level: u32, e: Entry) -> u32
    requires path_from { PathFrom level path.now m.now }
    requires level_bound { level ≤ 255 }
    ensures { result ≡ min count_limit
        (node_count index_space (some (planned_tree level path.now m.now (tree_entry e)))) }
{
    let mut sides = [NO_SIDE; MOST_SIDES];
    let Some(line) = path[level as usize].line else {
        return count_half(m, path, level, &mut sides, MOST_SIDES, e);
    };
    let front = MOST_SIDES - 1;
    sides[front] = Side::Left(line);
    let left = count_half(m, path, level, &mut sides, front, e);
    sides[front] = Side::Right(line);
    let right = count_half(m, path, level, &mut sides, front, e);
    capped_sum(capped_sum(left, right), 1)
}
