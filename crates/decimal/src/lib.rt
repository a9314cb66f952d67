// Decimal numbers: read digit by digit, and one digit written.
#![tactic(auto)]

ghost use Rattle.std.specs.Prelude.{◌≡◌, ◌≤◌};
ghost use Rattle.decimal.specs.Decimal.{digit, next_number};

// Why a character makes no longer number.
#[derive(Clone, Copy, Debug, PartialEq, Eq)]
pub enum NumberError {
    NoDigit,
    TooLarge, // above the limit
}

// The number that n becomes when the character b follows it, if that is a digit, and the number at most the limit. Whoever stops at the
// first that is not reads no number that is too long.
#[tactic(auto, using(std::proofs::lemmas::Bool::Decides::nat_tests), unfolding(crate::specs::Decimal::next_number))]
pub fn next_number(n: u32, b: u8, limit: u32) -> Result<u32, NumberError>
    ensures { result ≡ next_number n b limit }
{
    if !b.is_ascii_digit() {
        return Err(NumberError::NoDigit);
    }
    let next = u64::from(n) * 10 + u64::from(b - b'0');
    if u64::from(limit) < next {
        return Err(NumberError::TooLarge);
    }
    Ok(next as u32)
}

// The character of a digit.
pub fn digit(n: u32) -> u8
    requires { n ≤ 9 }
    ensures { result ≡ digit n }
{
    b'0' + n as u8
}
