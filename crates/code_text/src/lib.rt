// The text of a set of event codes, as `0-15,66,70`: numbers and ranges, joined by commas.
#![tactic(auto)]

ghost use Rattle.std.specs.Prelude.{◌≡◌, eqb, get_or, length, not, option_map};
ghost use Rattle.std.specs.List.{position};
ghost use Rattle.decimal.specs.Decimal.{no_zero_ahead};
ghost use Rattle.model.specs.Codes.{empty_set};
ghost use Rattle.refusals.specs.Refusals.{told};
ghost use Rattle.code_text.specs.CodeText.{dash, read_codes};
ghost use Rattle.code_text.specs.Steps.{number_of, item_in, item_of};

use code_ranges::{Range, with_range};
use decimal::next_number;
use model::Codes;
use refusals::Refusal;

// Whether digits have a 0 ahead of others.
fn has_leading_zero(digits: &[u8]) -> bool
    ensures { result ≡ not (no_zero_ahead (get_or digits.now 0 0) (length digits.now)) }
{
    digits.len() > 1 && digits[0] == b'0'
}

// The number up to 255 that a text is, without leading zeros.
#[tactic(auto, using(crate::proofs::Laws::reading_codes))]
fn number_of(text: &[u8]) -> Option<u32>
    ensures { result ≡ number_of text.now }
{
    if text.is_empty() || has_leading_zero(text) {
        return None;
    }
    let mut number = 0;
    for &digit in text {
        number = next_number(number, digit, 255).ok()?;
    }
    Some(number)
}

// Where the first dash stands.
fn dash_in(piece: &[u8]) -> Option<usize>
    ensures { result ≡ position (λ b. eqb b dash) piece.now }
{
    piece.iter().position(|&b| b == b'-')
}

// What stands between two commas: a number n, or a range a-b with a below b. A second dash is in what follows the first, which is then
// no number.
#[tactic(auto, using(crate::proofs::Laws::reading_codes))]
fn range_of(piece: &[u8]) -> Option<Range>
    ensures { option_map item_of result ≡ item_in piece.now }
{
    let Some(dash) = dash_in(piece) else {
        let code = number_of(piece)?;
        return Some(Range {
            first: code,
            last: code,
        });
    };
    let first = number_of(&piece[..dash])?;
    let last = number_of(&piece[dash + 1..])?;
    if first < last {
        Some(Range { first, last })
    } else {
        None
    }
}

// The set of codes that a text gives, as `0-15,66,70`; refused with 20 if the text is not of this form.
pub fn read_codes(text: &[u8]) -> Result<Codes, Refusal>
    ensures { told empty_set result ≡ read_codes text.now }
{
    let mut codes = codes::none();
    for piece in text.split(|&b| b == b',') {
        codes = with_range(codes, range_of(piece).ok_or(Refusal::NoCodes)?);
    }
    Ok(codes)
}
