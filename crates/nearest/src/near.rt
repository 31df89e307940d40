// What the walk for the nearest entry has met.
ghost use Rattle.std.specs.Prelude.{◌≡◌, true, ◌≤◌, None};
ghost use Rattle.geometry.specs.Cells.{on_grid};
ghost use Rattle.tree.specs.Order.{comes_before};
ghost use Rattle.layout.specs.Entries.{tree_entry};
ghost use Rattle.nearest.specs.Near.{near_by, best_of, one_more, rank_of, GoodNear, with_node, enters_near};

use distance::squared_distance;
use geometry::Cell;
use layout::Entry;

// An entry and its squared distance.
#[derive(Clone, Copy)]
pub struct Candidate {
    pub distance: u64,
    pub entry: Entry,
}

impl Candidate {
    // Whether it is nearer than another, or as near with a smaller x, then a smaller y.
    #[tactic(auto, unfolding(tree::specs::Order::comes_before))]
    fn is_before(self, other: Candidate) -> bool
        ensures { result ≡ comes_before (rank_of self) (rank_of other) }
    {
        let a = self.entry.cell;
        let b = other.entry.cell;
        (self.distance, a.x, a.y) < (other.distance, b.x, b.y)
    }
}

// The nearest entry met so far, if any, and the nodes entered.
#[derive(Clone, Copy)]
pub struct Near {
    pub best: Option<Candidate>,
    pub visits: u32,
}

impl Near {
    // Nothing was met yet.
    pub fn nothing() -> Near
        ensures { result ≡ record { best = None; visits = 0 } }
    {
        Near {
            best: None,
            visits: 0,
        }
    }

    // With one more entry: it is taken if it is nearer, or as near with a smaller x, then a smaller y.
    #[tactic(auto, unfolding(tree::specs::Nearest::or_nearer))]
    pub fn with_entry(self, c: Cell, entry: Entry) -> Near
        requires c_value { on_grid c ≡ true }
        requires cell_value { on_grid entry.cell ≡ true }
        requires good_near { GoodNear c self }
        ensures { result ≡ near_by c (one_more c (best_of self) (tree_entry entry)) self.visits }
    {
        let met = Candidate {
            distance: squared_distance(c, entry.cell),
            entry,
        };
        if self.best.is_none_or(|best| met.is_before(best)) {
            Near {
                best: Some(met),
                visits: self.visits,
            }
        } else {
            self
        }
    }

    // One more node is entered.
    pub fn entered(self) -> Near
        requires { self.visits ≤ 255 }
        ensures { result ≡ with_node self }
    {
        Near {
            best: self.best,
            visits: self.visits + 1,
        }
    }

    // Whether a child is entered whose polygon is at this least squared distance.
    #[tactic(auto, unfolding(crate::specs::Near::enters_near))]
    pub fn enters(self, d: u64) -> bool
        ensures { result ≡ enters_near self.best d }
    {
        self.best.is_none_or(|best| d <= best.distance)
    }
}
