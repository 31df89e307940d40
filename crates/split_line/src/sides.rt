// Whether cells are on sides of lines.
ghost use Rattle.std.specs.Prelude.{◌≡◌};
ghost use Rattle.geometry.specs.Clip.{below};
ghost use Rattle.split_line.specs.Sides.{on_side, on_every};

use geometry::{Cell, Line, Side};

// Whether the cell is left of the line.
fn is_below(line: Line, c: Cell) -> bool
    ensures { result ≡ below line c }
{
    match line {
        Line::AtX(l) => c.x < l,
        Line::AtY(l) => c.y < l,
    }
}

// Whether the cell is on the side.
#[tactic(auto, unfolding(crate::specs::Sides::on_side, crate::specs::Sides::side_of))]
pub fn is_on(side: Side, c: Cell) -> bool
    ensures { result ≡ on_side side c }
{
    match side {
        Side::Left(line) => is_below(line, c),
        Side::Right(line) => !is_below(line, c),
    }
}

// Whether the cell is on every side of a list.
pub fn on_all(sides: &[Side], c: Cell) -> bool
    ensures { result ≡ on_every sides.now c }
{
    sides.iter().all(|side| is_on(*side, c))
}
