// Splitting bytes at a separator: fields at spaces, lines at LF.
ghost use Rattle.std.specs.Prelude.{◌≡◌, ◌≤◌, ◌==◌, length, position};
ghost use Rattle.commands.specs.Split.{PieceEnd};

// The first place of the byte, if it is there.
fn place_of(s: &[u8], byte: u8) -> Option<usize>
    ensures { result ≡ position (λ b. b == byte) s.now }
{
    s.iter().position(|b| *b == byte)
}

// The first place of the byte from a place on, or the end if there is none: where the piece ends that starts there.
pub fn find_byte(s: &[u8], from: usize, byte: u8) -> usize
    requires { from ≤ length s.now }
    ensures { PieceEnd byte s.now from result }
{
    let rest = &s[from..];
    from + place_of(rest, byte).unwrap_or(rest.len())
}
