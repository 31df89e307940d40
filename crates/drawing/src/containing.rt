// The containment test of a polygon and a cell.
ghost use Rattle.std.specs.Prelude.{◌≡◌};
ghost use Rattle.drawing.specs.Calls.{contains_answer};

use crate::answer::Refusal;
use crate::arguments::{accept, is_list};
use geometry::{Cell, Containment, MOST_OF_POLYGON, Rects};

// Whether one of the polygon's rectangles has the cell, and how many were compared to tell.
pub fn contains(polygon: &[u32], c: Cell) -> Result<Containment, Refusal>
    ensures { result ≡ contains_answer polygon.now c }
{
    accept(is_list(polygon, MOST_OF_POLYGON))?;
    accept(c.on_grid())?;
    Ok(geometry::contains(Rects::new(polygon, polygon.len() / 4), c))
}
