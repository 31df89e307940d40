// The coordinate of a range that is nearest to another.
ghost use Rattle.std.specs.Prelude.{◌≡◌, ◌<◌};
ghost use Rattle.distance.specs.Distance.{clamped};

// The coordinate nearest to v among those from lo up to hi, which is excluded.
#[tactic(auto, unfolding(crate::specs::Distance::clamped))]
pub fn clamp_to(lo: u32, hi: u32, v: u32) -> u32
    requires { lo < hi }
    ensures { result ≡ clamped lo hi v }
{
    lo.max(v.min(hi - 1))
}
