// The line of a leaf.
ghost use Rattle.std.specs.Prelude.{◌≡◌};
ghost use Rattle.split_line.specs.FullLeaf.{entries_of, LeafHere, LeafLineIs, sums_of, added_sums, SmallSums};

use geometry::{Cell, Line};
use layout::{entries, item_count};

// The sums of coordinates and of their squares.
#[derive(Clone, Copy)]
struct Sums {
    x: u64,
    xx: u64,
    y: u64,
    yy: u64,
}

impl Sums {
    // With one more cell.
    #[tactic(auto, unfolding(crate::specs::FullLeaf::added_sums))]
    fn add(self, c: Cell) -> Sums
        requires { SmallSums self c }
        ensures { result ≡ added_sums self c }
    {
        let x = c.x as u64;
        let y = c.y as u64;
        Sums {
            x: self.x + x,
            xx: self.xx + x * x,
            y: self.y + y,
            yy: self.yy + y * y,
        }
    }
}

// The sums of a leaf's entries and the cell c.
fn leaf_sums(p: &[u32], c: Cell) -> Sums
    requires { LeafHere p.now c }
    ensures { result ≡ added_sums (sums_of (entries_of p.now)) c }
{
    let mut sums = Sums {
        x: 0,
        xx: 0,
        y: 0,
        yy: 0,
    };
    for e in entries(p) {
        sums = sums.add(e.cell);
    }
    sums.add(c)
}

// The line that splits the leaf with one more entry, at the cell c: just behind the mean of the coordinates in the
// dimension where they spread more, x on a tie.
pub fn leaf_line(p: &[u32], c: Cell) -> Line
    requires { LeafHere p.now c }
    ensures { LeafLineIs p.now c result }
{
    let n = (item_count(p) as u64) + 1;
    let sums = leaf_sums(p, c);
    let spread_x = n * sums.xx - sums.x * sums.x;
    let spread_y = n * sums.yy - sums.y * sums.y;
    if spread_x < spread_y {
        Line::AtY((sums.y / n) as u32 + 1)
    } else {
        Line::AtX((sums.x / n) as u32 + 1)
    }
}
