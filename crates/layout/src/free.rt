// Setting a part free: 'a part set free can serve again'.
ghost use Rattle.std.specs.Prelude.{◌≡◌};
ghost use Rattle.layout.specs.PartSet.{UsedPart, without_bit, freed};

use crate::place::part_range;
use crate::zeros::fill_zeros;

// Clears the bit of part k.
#[tactic(auto, using(crate::proofs::FreeLaws::bit_taken, crate::proofs::FreeLaws::bit_done))]
fn clear_bit(m: &mut [u32], k: u32)
    requires { UsedPart m.old k }
    ensures { m.new ≡ without_bit m.old k }
{
    let at = (k / 32) as usize;
    m[at] -= 1 << (k % 32);
}

// Sets part k free: its bit is cleared and its numbers become zero.
#[tactic(auto, using(crate::proofs::FreeLaws::cleared_length), unfolding(crate::specs::PartSet::set_part))]
pub fn set_free(m: &mut [u32], k: u32)
    requires { UsedPart m.old k }
    ensures { m.new ≡ freed m.old k }
{
    clear_bit(m, k);
    fill_zeros(&mut m[part_range(k)]);
}
