// Steps 1 to 3 of an insertion: the path from the root down to the leaf that gets the entry, with each polygon as it
// grows.
ghost use Rattle.std.specs.Prelude.{◌*◌, ◌+◌, ◌<◌, IfOk};
ghost use Rattle.insertion.specs.Descent.{Descending, Descended};
ghost use Rattle.insertion.specs.Removed.{RemovedBelow};

use choose_branch::choose;
use geometry::{Cell, TooMany};
use layout::child_at;
use path::Level;

// Goes on from the node on the path at a level down to the leaf, and says how many cells siblings removed on the way,
// or refusal 7 of step 2. So many cells were removed above; a level removes no more than the grid has.
pub fn descend(
    m: &[u32],
    level: u32,
    c: Cell,
    path: &mut [Level],
    removed: u64,
) -> Result<u64, TooMany>
    requires descending { Descending level path.old m.now c }
    requires level_bound { removed + level * 4294967296 < 18446744073709551616 }
    ensures descended { Descended level path.old m.now c path.new result }
    ensures removed_below { IfOk result (λ r. RemovedBelow level path.old m.now c removed r) }
{
    if level == 0 {
        return Ok(removed);
    }
    let n = level as usize;
    let k = path[n].part;
    let choice = choose(m, k, path[n].polygon, c)?;
    path[n].place = choice.place as u32;
    path[n - 1] = Level::of(child_at(m, k, choice.place), choice.polygon);
    descend(m, level - 1, c, path, removed + choice.removed)
}
