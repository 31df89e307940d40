// Cutting a list of rectangles by the polygons of a node's children.
ghost use Rattle.std.specs.Prelude.{◌≡◌, length};
ghost use Rattle.geometry.specs.Cut.{cut_limited};
ghost use Rattle.geometry.specs.Numbers.{rects_in, Written};
ghost use Rattle.choose_branch.specs.Branches.{polygons_at, polygons_in};
ghost use Rattle.choose_branch.specs.Cuts.{PartsCut, SiblingsCut};
ghost use Rattle.choose_branch.specs.Pieces.{rects_all, siblings};

use crate::branch::polygon_at;
use geometry::{TooMany, cut_polygon};
use layout::children_at;

// Cuts the first n rectangles of a list by the polygons of the nodes at some parts, in order and in place; the spare
// list holds the pieces on the way.
fn cut_by_parts(
    m: &[u32],
    parts: &[u32],
    list: &mut [u32],
    n: usize,
    spare: &mut [u32],
) -> Result<usize, TooMany>
    requires { PartsCut m.now parts.now list.old n spare.old }
    ensures written { Written list.old
        (cut_limited (rects_in list.old n) (rects_all (polygons_at m.now parts.now))) result
        list.new }
    ensures spare_len_unchanged { length spare.new ≡ length spare.old }
{
    let mut remaining = n;
    for &part in parts {
        let p = polygon_at(m, part);
        remaining = cut_polygon(list, remaining, p, spare)?;
    }
    Ok(remaining)
}

// Cuts the first n rectangles of a list by the polygons of all children but the one at a place, in order.
pub fn cut_by_siblings(
    m: &[u32],
    k: u32,
    place: usize,
    list: &mut [u32],
    n: usize,
    spare: &mut [u32],
) -> Result<usize, TooMany>
    requires { SiblingsCut m.now k place list.old n spare.old }
    ensures written { Written list.old
        (cut_limited (rects_in list.old n) (siblings (polygons_in m.now k) place)) result
        list.new }
    ensures spare_len_unchanged { length spare.new ≡ length spare.old }
{
    let children = children_at(m, k);
    let remaining = cut_by_parts(m, &children[..place], list, n, spare)?;
    cut_by_parts(m, &children[place + 1..], list, remaining, spare)
}
