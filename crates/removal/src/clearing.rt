// Clearing: the whole memory becomes zeros, which is the empty index.
ghost use Rattle.std.specs.Prelude.{◌≡◌};
ghost use Rattle.answers.specs.Answers.{clear_answer, cleared};

use answers::Refusal;
use layout::{fill_zeros, is_index_length};

// Empties the index. It needs only a right length, so it also serves a memory that reads as no tree.
pub fn clear(m: &mut [u32]) -> Result<u32, Refusal>
    ensures answer { result ≡ clear_answer m.old }
    ensures memory { m.new ≡ cleared m.old }
{
    if is_index_length(m) {
        fill_zeros(m);
        return Ok(0);
    }
    Err(Refusal::WrongLength)
}
