// How many entries are held.
ghost use Rattle.std.specs.Prelude.{◌≡◌, length};
ghost use Rattle.walks.specs.Count.{entries_at};
ghost use Rattle.walks.specs.Walks.{Walkable};

use layout::{children_at, count_at};

// Counts the entries below the node at part k, whose subtree has the parts from lo on.
pub fn entries_below(m: &[u32], level: u32, lo: u32, k: u32) -> u32
    requires { Walkable level m.now lo k }
    ensures { result ≡ length (entries_at level m.now lo k) }
{
    if level == 0 {
        return count_at(m, k);
    }
    let mut sum: u32 = 0;
    let mut low = lo;
    for &part in children_at(m, k) {
        sum += entries_below(m, level - 1, low, part);
        low = part + 1;
    }
    sum
}
