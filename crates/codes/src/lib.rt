// Sets of event codes: whether a code is in one, how many are, and which is the lowest.
#![tactic(auto)]

ghost use Rattle.std.specs.Prelude.{◌≡◌, ◌<◌, ◌/◌, ◌%◌, ◌^◌, eqb};
ghost use Rattle.model.specs.Codes.{is_in, is_empty, empty_set, the_keys, count_of, lowest_of};
ghost use Rattle.refusals.specs.Refusals.{told};

use model::Codes;
use refusals::Refusal;

// The set of no codes.
pub fn none() -> Codes
    ensures { result ≡ empty_set }
{
    Codes {
        from_0: 0,
        from_64: 0,
        from_128: 0,
        from_192: 0,
    }
}

// The 16 keys: digits 0 to 9, * and #, A to D.
pub fn keys() -> Codes
    ensures { result ≡ the_keys }
{
    Codes {
        from_0: 0xffff,
        ..none()
    }
}

// Bit k of a word.
fn has_bit(word: u64, k: u32) -> bool
    requires { k < 64 }
    ensures { result ≡ eqb (word / 2 ^ k % 2) 1 }
{
    (word >> k) & 1 == 1
}

// Whether a code is in the set; none above 255 is.
#[tactic(auto, using(crate::proofs::Laws::where_bits_stand))]
pub fn contains(codes: Codes, code: u32) -> bool
    ensures { result ≡ is_in codes code }
{
    if code < 64 {
        has_bit(codes.from_0, code)
    } else if code < 128 {
        has_bit(codes.from_64, code - 64)
    } else if code < 192 {
        has_bit(codes.from_128, code - 128)
    } else if code < 256 {
        has_bit(codes.from_192, code - 192)
    } else {
        false
    }
}

// The same of a code in one byte, as a packet has it.
pub fn contains_byte(codes: Codes, code: u8) -> bool
    ensures { result ≡ is_in codes code }
{
    contains(codes, u32::from(code))
}

// Whether no code is in the set.
pub fn is_empty(codes: Codes) -> bool
    ensures { result ≡ is_empty codes }
{
    codes.from_0 == 0 && codes.from_64 == 0 && codes.from_128 == 0 && codes.from_192 == 0
}

// How many codes the set holds.
#[tactic(auto, using(crate::proofs::Counts::counts))]
pub fn count(codes: Codes) -> u32
    ensures { result ≡ count_of codes }
{
    codes.from_0.count_ones()
        + codes.from_64.count_ones()
        + codes.from_128.count_ones()
        + codes.from_192.count_ones()
}

// The lowest code that the set holds, or 20 if it is empty.
#[tactic(auto, using(crate::proofs::Counts::counts))]
pub fn lowest(codes: Codes) -> Result<u32, Refusal>
    ensures { told 0 result ≡ lowest_of codes }
{
    if codes.from_0 != 0 {
        Ok(codes.from_0.trailing_zeros())
    } else if codes.from_64 != 0 {
        Ok(64 + codes.from_64.trailing_zeros())
    } else if codes.from_128 != 0 {
        Ok(128 + codes.from_128.trailing_zeros())
    } else if codes.from_192 != 0 {
        Ok(192 + codes.from_192.trailing_zeros())
    } else {
        Err(Refusal::NoCodes)
    }
}
