// The soundness test of a node with all below it.
ghost use Rattle.std.specs.Prelude.{◌≡◌, ◌&&◌, ◌+◌, ◌≤◌, ◌<◌};
ghost use Rattle.geometry.specs.Cells.{all_valid};
ghost use Rattle.cover.specs.Tests.{all_pass, pairs_pass, inside_of};
ghost use Rattle.plane.specs.Fanout.{fanout};
ghost use Rattle.memory.specs.Layout.{part, polygon_in, node_fits};
ghost use Rattle.memory.proofs.ReadingLaws.{IndexLength};
ghost use Rattle.layout.specs.Nodes.{PolygonPart};
ghost use Rattle.soundness.specs.Check.{PolygonParts, parts_apart, checked_at};

use crate::leaf::{entries_apart, entries_inside};
use cover::{are_apart, inside};
use geometry::all_valid;
use layout::{CHILD, ENTRY, children, node_fits, part_at, polygon_rects};

// Whether the polygon at part j is inside the one at part k.
fn child_inside(m: &[u32], k: u32, j: u32) -> bool
    requires polygon_part { PolygonPart m.now k }
    requires polygon_part_2 { PolygonPart m.now j }
    ensures { result ≡ inside_of (polygon_in (part m.now k)) (polygon_in (part m.now j)) }
{
    inside(polygon_rects(m, k), polygon_rects(m, j))
}

// Whether the polygons at parts i and j share no cell.
#[tactic(auto, unfolding(crate::specs::Check::parts_apart))]
fn parts_apart(m: &[u32], i: u32, j: u32) -> bool
    requires polygon_part { PolygonPart m.now i }
    requires polygon_part_2 { PolygonPart m.now j }
    ensures { result ≡ parts_apart m.now i j }
{
    are_apart(polygon_rects(m, i), polygon_rects(m, j))
}

// Whether the polygon at part k shares no cell with those at other parts.
fn none_meets(m: &[u32], k: u32, others: &[u32]) -> bool
    requires polygon_part { PolygonPart m.now k }
    requires polygon_parts { PolygonParts m.now others.now }
    ensures { result ≡ all_pass (parts_apart m.now k) others.now }
{
    others.iter().all(|&j| parts_apart(m, k, j))
}

// Whether no two of the polygons at some parts share a cell.
fn siblings_apart(m: &[u32], ks: &[u32]) -> bool
    requires { PolygonParts m.now ks.now }
    ensures { result ≡ pairs_pass (parts_apart m.now) ks.now }
{
    for (i, &k) in ks.iter().enumerate() {
        if !none_meets(m, k, &ks[i + 1..]) {
            return false;
        }
    }
    true
}

// Whether part k is a node's, whose items take w numbers each, and its rectangles are valid.
fn head_fits(m: &[u32], k: u32, w: usize) -> bool
    requires index_length { IndexLength m.now }
    requires w_bound { w ≤ 3 }
    ensures { result ≡ node_fits fanout w m.now k && all_valid (polygon_in (part m.now k)) }
{
    node_fits(m, k, w) && all_valid(polygon_rects(m, k))
}

// The one node of the leaf at part k, where it is a sound leaf.
fn check_leaf(m: &[u32], k: u32) -> Option<u32>
    requires { IndexLength m.now }
    ensures { result ≡ checked_at 0 m.now 0 k }
{
    if !head_fits(m, k, ENTRY) {
        return None;
    }
    let p = part_at(m, k);
    if !entries_inside(p) {
        return None;
    }
    if !entries_apart(p) {
        return None;
    }
    Some(1)
}

// The number of nodes of the subtree at part k, whose leaves lie `level` steps below it and whose parts are those
// from lo on, where it reads and is sound in itself.
pub fn check_node(m: &[u32], level: u32, lo: u32, k: u32) -> Option<u32>
    requires index_length { IndexLength m.now }
    requires lo_le_k { lo ≤ k }
    ensures { result ≡ checked_at level m.now lo k }
{
    if level == 0 {
        return check_leaf(m, k);
    }
    if !head_fits(m, k, CHILD) {
        return None;
    }
    let ks = children(part_at(m, k));
    let mut low = lo;
    let mut sum: u32 = 1;
    for &j in ks {
        if j < low {
            return None;
        }
        if k <= j {
            return None;
        }
        let nodes = check_node(m, level - 1, low, j)?;
        if !child_inside(m, k, j) {
            return None;
        }
        sum += nodes;
        low = j + 1;
    }
    if siblings_apart(m, ks) {
        return Some(sum);
    }
    None
}
