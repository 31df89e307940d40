// Whether the index of a session is one.
ghost use Rattle.memory.specs.TreeIn.{Known};

use layout::is_index_length;
use soundness::open;

// Whether the memory reads as an index, by a test.
pub fn is_index(m: &[u32]) -> bool
    ensures { Known m.now result }
{
    is_index_length(m) && open(m).is_ok()
}
