// Document 01, 'Refine', as code: of a list of rectangles as numbers, and of a polygon by value.
#![tactic(auto)]

mod polygon_refine;
mod refine;
mod scan;

pub use polygon_refine::refine_polygon;
pub use refine::refine_list;
