// A field of a command read as a number.
ghost use Rattle.std.specs.Prelude.{◌≡◌};
ghost use Rattle.commands.specs.Fields.{number_of};

// The number of a field: 1 to 10 decimal digits, at most 4294967295.
#[tactic(auto, unfolding(crate::specs::Fields::number_of))]
pub fn read_number(field: &[u8]) -> Option<u32>
    ensures { result ≡ number_of field.now }
{
    if field.is_empty() || 10 < field.len() {
        return None;
    }
    let mut value = 0;
    for &byte in field {
        if !byte.is_ascii_digit() {
            return None;
        }
        value = 10 * value + u64::from(byte - b'0');
    }
    u32::try_from(value).ok()
}
