// Where a part stands in the memory.
ghost use Rattle.std.specs.Prelude.{◌≡◌, ◌+◌, ◌*◌};

use crate::numbers::{HEAD, PART};
use std::ops::Range;

// The place of part k: behind the head and the parts before it.
// A range: of a function that hands out &mut m[a..e] Rattle proves no clause on what m becomes.
pub fn part_range(k: u32) -> Range<usize>
    ensures start { result.start ≡ 64 + 128 * k }
    ensures end { result.end ≡ 64 + 128 * k + 128 }
{
    let start = HEAD + PART * (k as usize);
    start..start + PART
}
