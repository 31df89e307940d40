// Which lent lists the calls accept.
ghost use Rattle.std.specs.Prelude.{◌≡◌};
ghost use Rattle.drawing.specs.Arguments.{is_list, accepted};
ghost use Rattle.drawing.specs.Calls.{valid_alone};

use crate::answer::Refusal;
use geometry::{MOST_PIECES, Rects, all_valid};

// The numbers of a result list: 'a list of exactly 256 rectangles'.
pub const RESULT_NUMBERS: usize = 1024;

// Whether the numbers are 1 up to a limit of valid rectangles.
pub fn is_list(list: &[u32], most: usize) -> bool
    ensures { result ≡ is_list most list.now }
{
    let n = list.len() / 4;
    list.len() % 4 == 0 && 1 <= n && n <= most && all_valid(Rects::new(list, n))
}

// Refuses a call of which an argument is not valid.
#[tactic(auto, unfolding(crate::specs::Arguments::accepted))]
pub fn accept(valid: bool) -> Result<(), Refusal>
    ensures { result ≡ accepted valid }
{
    if valid { Ok(()) } else { Err(Refusal::Invalid) }
}

// Refuses a call of which the list or the result list is not valid.
pub fn accept_lists(list: &[u32], out: &[u32]) -> Result<(), Refusal>
    ensures { result ≡ accepted (valid_alone list.now out.now) }
{
    accept(out.len() == RESULT_NUMBERS)?;
    accept(is_list(list, MOST_PIECES))
}
