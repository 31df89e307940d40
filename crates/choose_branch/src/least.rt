// The rectangle of least extra area among the polygons of a node's children.
ghost use Rattle.std.specs.Prelude.{◌≡◌, true, ◌*◌, ◌≤◌, length};
ghost use Rattle.geometry.specs.Cells.{on_grid, all_valid};
ghost use Rattle.geometry.specs.Numbers.{rects_in};
ghost use Rattle.memory.specs.Layout.{part, polygon_in};
ghost use Rattle.layout.specs.Nodes.{GoodPolygonPart};
ghost use Rattle.choose_branch.specs.Branches.{polygons_in, Branches};
ghost use Rattle.choose_branch.specs.Least.{least_of, least_all};

use crate::alone::least_alone;
use area::{bounds_of, extra_area};
use geometry::{Cell, Rects};
use layout::{children_at, part_at, rect_count, rects};

// The rectangle of least extra area so far, by its branch and its place in the branch's polygon.
#[derive(Clone, Copy)]
pub struct Least {
    pub branch: usize,
    pub rect: usize,
    pub extra: u64,
}

// The least so far, or the first of the branch's n rectangles with the least extra area if that is smaller. The cells
// of a rectangle are counted up to the least so far.
fn least_in(list: &[u32], n: usize, branch: usize, c: Cell, known: Least) -> Least
    requires le_n { 1 ≤ n }
    requires n_in_bounds { 4 * n ≤ length list.now }
    requires n_value { all_valid (rects_in list.now n) ≡ true }
    requires c_value { on_grid c ≡ true }
    ensures { result ≡ least_of c branch known (rects_in list.now n) }
{
    let bounds = bounds_of(Rects::new(list, n));
    let mut best = known;
    // over places: an extra area is asked for by the place in the numbers
    for i in 0..n {
        let extra = extra_area(list, n, i, c, bounds, best.extra);
        if extra < best.extra {
            best = Least {
                branch,
                rect: i,
                extra,
            };
        }
    }
    best
}

// The same with the polygon of the branch at part j.
fn least_at(m: &[u32], j: u32, branch: usize, c: Cell, known: Least) -> Least
    requires good_polygon_part { GoodPolygonPart m.now j }
    requires c_value { on_grid c ≡ true }
    ensures { result ≡ least_of c branch known (polygon_in (part m.now j)) }
{
    let p = part_at(m, j);
    least_in(rects(p), rect_count(p) as usize, branch, c, known)
}

// The rectangle of least extra area, first branch then first rectangle on ties, of the children of the node
// at part k.
pub fn find_least(m: &[u32], k: u32, c: Cell) -> Least
    requires branches { Branches m.now k }
    requires c_value { on_grid c ≡ true }
    ensures { result ≡ least_all c (polygons_in m.now k) }
{
    let top = least_alone(m, k, c);
    // no Option: some rectangle's extra area is at most the top, so one is taken
    let extra = top + 1;
    let mut best = Least {
        branch: 0,
        rect: 0,
        extra,
    };
    for (branch, &part) in children_at(m, k).iter().enumerate() {
        best = least_at(m, part, branch, c, best);
    }
    best
}
