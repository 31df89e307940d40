// Lists of zeros: 'Unused numbers are zero'.
ghost use Rattle.std.specs.Prelude.{◌≡◌, length, replicate};
ghost use Rattle.memory.specs.Layout.{all_zero};

// Whether every number is zero. No early return: all are read at once where they are zero, which is the usual case.
pub fn all_zero(s: &[u32]) -> bool
    ensures { result ≡ all_zero s.now }
{
    s.iter().fold(0, |seen, x| seen | x) == 0
}

// Zeros the whole list.
pub fn fill_zeros(m: &mut [u32])
    ensures { m.new ≡ replicate (length m.old) 0 }
{
    m.fill(0);
}
