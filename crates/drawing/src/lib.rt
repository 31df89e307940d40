// The drawing exercise: the rectangle rules on lent numbers, four a rectangle (llx, lly, urx, ury), and a polygon
// written for a map program.
//
// No call here has a `requires`: a bad argument is refused, and leaves every lent list as it was.
#![tactic(auto)]

mod answer;
mod arguments;
mod calls;
mod containing;
mod polygon_cut;
mod writing;

pub use answer::{PolygonCut, Refusal};
pub use calls::{common, cut, extra_area, grow, refine};
pub use containing::contains;
pub use polygon_cut::cut_by_polygon;
pub use writing::write_wkb;
