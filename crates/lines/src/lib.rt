// A line of session.txt: a name, a decimal number and a newline.
#![tactic(auto)]

ghost use Rattle.std.specs.Prelude.{◌≡◌, ◌≤◌, length};
ghost use Rattle.lines.specs.Lines.{fault_of, line_of, number_at, line_at};

use decimal::{NumberError, next_number};

// Why a line is none of a session.
#[derive(Clone, Copy, Debug, PartialEq, Eq)]
pub enum Fault {
    Name, // it does not begin with its name and `=`
    NoNumber, // nothing stands between the `=` and the newline
    LeadingZero, // a 0 stands before other digits
    NoDigit, // something else than digits stands before the newline
    TooLarge, // the number has more than 32 bits
    NoNewline, // the text ends within the line
    MoreText, // it is a fourth line
}

impl From<NumberError> for Fault {
    ghost from_gives = { λ why fault. fault ≡ fault_of why };

    fn from(why: NumberError) -> Fault {
        match why {
            NumberError::NoDigit => Fault::NoDigit,
            NumberError::TooLarge => Fault::TooLarge,
        }
    }
}

// One line: its number, and the place after its newline.
#[derive(Clone, Copy, Debug, PartialEq, Eq)]
pub struct Line {
    pub number: u32,
    pub end: usize,
}

// The line of a number with so many digits: at least one, and a 0 first only if it is alone.
#[tactic(auto, using(std::proofs::lemmas::Bool::Decides::nat_tests))]
fn line_of(first: u8, digits: usize, number: u32, end: usize) -> Result<Line, Fault>
    ensures { result ≡ line_of first digits number end }
{
    if digits == 0 {
        Err(Fault::NoNumber)
    } else if 1 < digits && first == b'0' {
        Err(Fault::LeadingZero)
    } else {
        Ok(Line { number, end })
    }
}

// The number from a place up to a newline.
#[tactic(auto, using(crate::proofs::Laws::line_text))]
fn number_at(s: &[u8], at: usize) -> Result<Line, Fault>
    requires { at ≤ length s.now }
    ensures { result ≡ number_at s.now at }
{
    let mut number = 0;
    for (i, &b) in s[at..].iter().enumerate() {
        if b == b'\n' {
            return line_of(s[at], i, number, at + i + 1);
        }
        number = next_number(number, b, u32::MAX)?;
    }
    Err(Fault::NoNewline)
}

// One line: a name, and a number up to a newline.
#[tactic(auto, using(crate::proofs::Laws::line_text))]
pub fn line_at(s: &[u8], at: usize, name: &[u8]) -> Result<Line, Fault>
    requires { at ≤ length s.now }
    ensures { result ≡ line_at name.now s.now at }
{
    if !s[at..].starts_with(name) {
        return Err(Fault::Name);
    }
    number_at(s, at + name.len())
}
