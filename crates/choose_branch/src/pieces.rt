// The grown polygon of a branch: the pieces of the grown rectangle outside the siblings and inside the parent,
// in place of the old rectangle.
ghost use Rattle.std.specs.Prelude.{◌≡◌, true, ◌<◌, IfOk, length, get_or};
ghost use Rattle.geometry.specs.Cells.{on_grid, no_rect};
ghost use Rattle.geometry.specs.Grow.{grown};
ghost use Rattle.geometry.specs.Numbers.{rects_of, Written};
ghost use Rattle.memory.specs.Layout.{part, rect_count, polygon_in};
ghost use Rattle.layout.specs.Nodes.{PolygonPart};
ghost use Rattle.choose_branch.specs.Branches.{polygons_in};
ghost use Rattle.choose_branch.specs.Cuts.{GrownCut, BranchGrowth};
ghost use Rattle.choose_branch.specs.Limit.{grown_count};
ghost use Rattle.choose_branch.specs.Pieces.{siblings, inner_pieces, grown_at, grown_rect};
ghost use Rattle.choose_branch.specs.Removed.{RemovedBy};

use crate::least::Least;
use crate::replacing::put_polygon;
use crate::siblings::cut_by_siblings;
use area::total_area;
use geometry::{Cell, Polygon, Rect, Rects, TooMany, common_parts, put_rect, rect_at};
use layout::{child_at, part_at, rects};

// How many rectangles were written, and how many cells siblings removed from the grown rectangle.
#[derive(Clone, Copy)]
pub struct Grown {
    pub rects: usize,
    pub removed: u64,
}

// Writes the pieces of the grown rectangle g of the branch at a place: outside its siblings, inside the parent's
// polygon p. The list holds the pieces on the way.
fn put_inner(
    m: &[u32],
    k: u32,
    place: usize,
    g: Rect,
    p: Polygon,
    list: &mut [u32],
    out: &mut [u32],
) -> Result<Grown, TooMany>
    requires { GrownCut m.now k place g p list.old out.old }
    ensures written { Written out.old
        (inner_pieces (rects_of p) (siblings (polygons_in m.now k) place) g) (grown_count result) out.new }
    ensures removed_by { IfOk result (λ r. RemovedBy g (siblings (polygons_in m.now k) place) r.removed) }
    ensures list_len_unchanged { length list.new ≡ length list.old }
{
    put_rect(list, 0, g);
    let n = cut_by_siblings(m, k, place, list, 1, out)?;
    // the pieces share no cell; those outside the parent's polygon are still among them
    let remaining = total_area(Rects::new(list, n));
    let removed = g.area() - remaining;
    let rects = common_parts(Rects::new(list, n), p, out)?;
    Ok(Grown { rects, removed })
}

// The rect-th rectangle of the polygon at part j, grown to the cell.
fn grown_rect(m: &[u32], j: u32, rect: usize, c: Cell) -> Rect
    requires polygon_part { PolygonPart m.now j }
    requires rect_bound { rect < rect_count (part m.now j) }
    requires c_value { on_grid c ≡ true }
    ensures { result ≡ grown (get_or (polygon_in (part m.now j)) rect no_rect) c }
{
    let p = part_at(m, j);
    let r = rect_at(rects(p), rect);
    r.grow(c)
}

// Writes the polygon of the branch that was found among the children of the node at part k, with the rectangle that was
// found in it grown to the cell; p is the node's own polygon. The spare list holds the pieces on the way.
pub fn put_grown(
    m: &[u32],
    k: u32,
    found: Least,
    p: Polygon,
    c: Cell,
    list: &mut [u32],
    spare: &mut [u32],
) -> Result<Grown, TooMany>
    requires { BranchGrowth m.now k found.branch found.rect p c list.old spare.old }
    ensures written { Written list.old (grown_at (rects_of p) (polygons_in m.now k) found.branch found.rect c)
        (grown_count result) list.new }
    ensures removed_by { IfOk result (λ r. RemovedBy (grown_rect (polygons_in m.now k) found.branch found.rect c)
        (siblings (polygons_in m.now k) found.branch) r.removed) }
{
    let j = child_at(m, k, found.branch);
    let g = grown_rect(m, j, found.rect, c);
    let inner = put_inner(m, k, found.branch, g, p, list, spare)?;
    let rects = put_polygon(m, j, found.rect, list, Rects::new(spare, inner.rects))?;
    Ok(Grown {
        rects,
        removed: inner.removed,
    })
}
