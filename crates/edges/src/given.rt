// The bytes of a row.
ghost use Rattle.std.specs.Prelude.{◌≤◌};

use crate::row::digit;

// The bytes of a text, in hexadecimal or as they are between quotes, with zeros after them; answers how many they are, at most 64.
pub fn bytes_of(text: &[u8], bytes: &mut [u8; 64]) -> usize
    ensures { result ≤ 64 }
{
    *bytes = [0; 64];
    let mut digits = 0usize;
    let mut quoted = false;
    for &c in text {
        if c == b'\'' {
            quoted = !quoted;
        } else if quoted {
            if let Some(byte) = bytes.get_mut(digits / 2) {
                *byte = c;
            }
            digits = digits.saturating_add(2);
        } else if c != b' ' {
            if let Some(byte) = bytes.get_mut(digits / 2) {
                *byte = *byte % 16 * 16 + digit(c);
            }
            digits = digits.saturating_add(1);
        }
    }
    64.min(digits / 2)
}
