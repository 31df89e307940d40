// The geometries: a rectangle as a polygon of one ring, a list of rectangles as a collection of such polygons.
// A function calls three others at most: the proof composes what three calls wrote.
ghost use Rattle.std.specs.Prelude.{◌≡◌, ◌+◌, ◌*◌, ◌≤◌, length};
ghost use mathlib.Core.List.{◌++◌, flat_map};
ghost use Rattle.geometry.specs.Rects.{rects_left};
ghost use Rattle.wkb.specs.Bytes.{overwritten};
ghost use Rattle.wkb.specs.Collection.{header_bytes, point_bytes, ring, polygon_bytes, collection_bytes};
ghost use Rattle.wkb.specs.Kinds.{type_number};

use crate::bytes::{put_double, put_little};
use geometry::{Rect, Rects};

// The geometries that are written.
#[derive(Clone, Copy, Debug, PartialEq, Eq)]
enum Kind {
    Polygon,
    Collection,
}

// The format's type of a geometry.
fn type_number(kind: Kind) -> u64
    ensures { result ≡ type_number kind }
{
    match kind {
        Kind::Polygon => 3,
        Kind::Collection => 7,
    }
}

// The byte order, a type and a count.
fn put_header(out: &mut [u8], at: usize, kind: Kind, count: u64)
    requires { at + 9 ≤ length out.old }
    ensures { out.new ≡ overwritten out.old at (header_bytes (type_number kind) count) }
{
    put_little(out, at, 1, 1);
    put_little(out, at + 1, 4, type_number(kind));
    put_little(out, at + 5, 4, count);
}

// A point.
fn put_point(out: &mut [u8], at: usize, x: u32, y: u32)
    requires { at + 16 ≤ length out.old }
    ensures { out.new ≡ overwritten out.old at (point_bytes (x, y)) }
{
    put_double(out, at, x);
    put_double(out, at + 8, y);
}

// Two points with the same y: a side of the ring.
fn put_side(out: &mut [u8], at: usize, from: u32, to: u32, y: u32)
    requires { at + 32 ≤ length out.old }
    ensures { out.new
        ≡ overwritten out.old at (point_bytes (from, y) ++ point_bytes (to, y)) }
{
    put_point(out, at, from, y);
    put_point(out, at + 16, to, y);
}

// The ring of a rectangle: the lower side, the upper side, and ll again.
fn put_ring(out: &mut [u8], at: usize, r: Rect)
    requires { at + 80 ≤ length out.old }
    ensures { out.new ≡ overwritten out.old at (flat_map point_bytes (ring r)) }
{
    put_side(out, at, r.llx, r.urx, r.lly);
    put_side(out, at + 32, r.urx, r.llx, r.ury);
    put_point(out, at + 64, r.llx, r.lly);
}

// A rectangle as a polygon of one ring of five points.
fn put_polygon(out: &mut [u8], at: usize, r: Rect)
    requires { at + 93 ≤ length out.old }
    ensures { out.new ≡ overwritten out.old at (polygon_bytes r) }
{
    put_header(out, at, Kind::Polygon, 1);
    put_little(out, at + 9, 4, 5);
    put_ring(out, at + 13, r);
}

// The rectangles as a collection, at the start of out.
pub fn put_collection(rects: Rects, out: &mut [u8])
    requires { 9 + 93 * length (rects_left rects) ≤ length out.old }
    ensures { out.new
        ≡ overwritten out.old 0 (collection_bytes (rects_left rects.entry)) }
{
    put_header(out, 0, Kind::Collection, rects.len() as u64);
    let mut at = 9;
    for r in rects {
        put_polygon(out, at, r);
        at += 93;
    }
}
