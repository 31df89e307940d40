// The rectangle rules of document 01, 'Grid, rectangles, polygons': rectangles and polygons by
// value, and lists of rectangles as numbers, four a rectangle.
#![tactic(auto)]

mod common;
mod containment;
mod cut;
mod limits;
mod numbers;
mod pieces;
mod polygon;
mod rect;
mod rects;
mod within;

pub use common::common_parts;
pub use containment::{Containment, contains};
pub use cut::{TooMany, any_shares, cut_list, cut_polygon};
pub use limits::{MOST_OF_POLYGON, MOST_PIECES, WORK_NUMBERS};
pub use numbers::{all_valid, copy, put_rect, put_rects, rect_at};
pub use polygon::Polygon;
pub use rect::{Cell, Line, Rect, Side};
pub use rects::Rects;
pub use within::is_within_any;
