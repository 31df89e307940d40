// Which parts are in use: a bit for each, in the first eight numbers.
ghost use Rattle.std.specs.Prelude.{◌≡◌, ◌≤◌, ◌<◌, length};
ghost use Rattle.memory.specs.Layout.{bits_set, in_use};

// How many bits are set.
pub fn bits_set(m: &[u32]) -> u32
    requires { 8 ≤ length m.now }
    ensures { result ≡ bits_set m.now }
{
    m[..8].iter().map(|w| w.count_ones()).sum()
}

// Whether part k is in use.
#[tactic(auto, unfolding(memory::specs::Layout::in_use))]
pub fn in_use(m: &[u32], k: u32) -> bool
    requires in_bounds { 8 ≤ length m.now }
    requires k_bound { k < 256 }
    ensures { result ≡ in_use m.now k }
{
    let w = m[(k / 32) as usize];
    (w >> (k % 32)) % 2 == 1
}
