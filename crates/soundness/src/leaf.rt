// A leaf's entries: inside its polygon, and no two in one cell.
ghost use Rattle.std.specs.Prelude.{◌≡◌, ◌+◌, ◌≤◌, ◌<◌, drop};
ghost use Rattle.cover.specs.Tests.{all_pass, pairs_pass};
ghost use Rattle.plane.specs.Fanout.{fanout};
ghost use Rattle.memory.specs.Layout.{item_count, polygon_in, entry_in, entries_in};
ghost use Rattle.memory.specs.SoundTest.{apart_test, item_test};
ghost use Rattle.layout.specs.Nodes.{IsPart, NodePart};

use geometry::contains;
use layout::{entries, entry_cell, item_count, polygon_in};

// Whether the polygon of a leaf's part contains its entries.
pub fn entries_inside(p: &[u32]) -> bool
    requires { NodePart p.now }
    ensures { result ≡ all_pass (item_test fanout 0 (polygon_in p.now))
        (entries_in p.now (item_count p.now)) }
{
    let polygon = polygon_in(p);
    entries(p).all(|e| contains(polygon, e.cell).has)
}

// Whether none of the entries behind the i-th of n has its cell. All eight places are compared, so that the lengths of
// the loops are constants; the count is asked only where two are equal, since the places behind it are zeros.
fn none_like(p: &[u32], n: usize, i: usize) -> bool
    requires i_lt_n { i < n }
    requires n_bound { n ≤ 8 }
    requires part { IsPart p.now }
    ensures { result ≡ all_pass (apart_test fanout 0 (entry_in p.now i))
        (drop (i + 1) (entries_in p.now n)) }
{
    let c = entry_cell(p, i);
    for j in i + 1..8 {
        if c == entry_cell(p, j) && j < n {
            return false;
        }
    }
    true
}

// Whether no two entries of a leaf's part have one cell.
pub fn entries_apart(p: &[u32]) -> bool
    requires { NodePart p.now }
    ensures { result ≡ pairs_pass (apart_test fanout 0) (entries_in p.now (item_count p.now)) }
{
    let count = item_count(p) as usize;
    for i in 0..8 {
        if count <= i {
            return true;
        }
        if !none_like(p, count, i) {
            return false;
        }
    }
    true
}
