// Writing a set of event codes as text: a rising list with the longest ranges.
#![tactic(auto)]

ghost use Rattle.std.specs.Prelude.{◌≡◌, ◌≤◌, length};
ghost use Rattle.refusals.specs.Refusals.{told};
ghost use Rattle.item_writer.specs.Items.{Puts};
ghost use Rattle.code_writer.specs.CodesWritten.{write_codes};
ghost use Rattle.code_writer.specs.Steps.{Next, ranges_text};

use code_ranges::Range;
use codes::{contains, is_empty};
use item_writer::put_range;
use model::Codes;
use refusals::Refusal;

// The first range of the set's codes from a code on, as long as it goes.
fn next_range(codes: Codes, from: u32) -> Option<Range>
    requires { from ≤ 256 }
    ensures { Next codes from result }
{
    let first = (from..256).find(|&code| contains(codes, code))?;
    let end = (first + 1..256).find(|&code| !contains(codes, code));
    Some(Range {
        first,
        last: end.unwrap_or(256) - 1,
    })
}

// Puts all ranges, each with its comma before it; answers the place after them.
#[tactic(auto, using(crate::proofs::Laws::writing_codes))]
fn put_ranges(codes: Codes, out: &mut [u8]) -> usize
    requires { 610 ≤ length out.old }
    ensures { Puts (ranges_text codes) 0 out.old result out.new }
{
    let mut at = 0;
    let mut from = 0;
    while let Some(range) = next_range(codes, from) {
        at = put_range(range, at, out);
        from = range.last + 1;
    }
    at
}

// Writes the set's text at the start of the output and answers its length, or refuses with 20 or 14 and leaves the output as it is.
#[tactic(auto, using(crate::proofs::Laws::writing_codes))]
pub fn write_codes(codes: Codes, out: &mut [u8]) -> Result<usize, Refusal>
    ensures result_value { told 0 result ≡ (write_codes codes out.old).answer }
    ensures out_after { out.new ≡ (write_codes codes out.old).output }
{
    if is_empty(codes) {
        return Err(Refusal::NoCodes);
    }
    // No heap: a text has at most 609 bytes; the comma before the first range is no part of it
    let mut text = [0u8; 610];
    let end = put_ranges(codes, &mut text);
    let text = &text[1..end];
    if out.len() < text.len() {
        return Err(Refusal::OutputTooSmall);
    }
    out[..text.len()].copy_from_slice(text);
    Ok(text.len())
}
