// The numbers in a block header of four bytes (RFC 2198).
#![tactic(auto, unfolding(crate::specs::Fields::offset_at, crate::specs::Fields::length_at))]

ghost use Rattle.std.specs.Prelude.{◌+◌, ◌≤◌, ◌≡◌, length};
ghost use Rattle.block_fields.specs.Fields.{offset_at, length_at};

use big_endian::number_16;

// The timestamp offset in a header of four bytes: the upper 14 of 16 bits.
pub fn offset_at(s: &[u8], at: usize) -> u16
    requires { at + 4 ≤ length s.now }
    ensures { result ≡ offset_at s.now at }
{
    number_16(s, at + 1) / 4
}

// The block length in a header of four bytes: the lower 10 of 16 bits.
pub fn length_at(s: &[u8], at: usize) -> usize
    requires { at + 4 ≤ length s.now }
    ensures { result ≡ length_at s.now at }
{
    usize::from(number_16(s, at + 2)) % 1024
}
