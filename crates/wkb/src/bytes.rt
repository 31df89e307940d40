// Numbers written as bytes, lowest first.
ghost use Rattle.std.specs.Prelude.{◌≡◌, ◌+◌, ◌≤◌, length};
ghost use Rattle.wkb.specs.Bytes.{little_bytes, overwritten};
ghost use Rattle.wkb.specs.Doubles.{double_bytes};

// Writes the k lowest bytes of a number from a place on.
pub fn put_little(out: &mut [u8], at: usize, k: usize, v: u64)
    requires { at + k ≤ length out.old }
    ensures { out.new ≡ overwritten out.old at (little_bytes k v) }
{
    let mut rest = v;
    for i in 0..k {
        out[at + i] = (rest % 256) as u8;
        rest = rest / 256;
    }
}

// Writes a whole number as a double.
pub fn put_double(out: &mut [u8], at: usize, n: u32)
    requires { at + 8 ≤ length out.old }
    ensures { out.new ≡ overwritten out.old at (double_bytes n) }
{
    put_little(out, at, 8, f64::to_bits(n as f64));
}
