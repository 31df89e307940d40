// Well-Known Binary, the published OGC layout, little-endian: rectangles written as bytes.
#![tactic(auto)]

mod bytes;
mod geometries;

pub use geometries::put_collection;
