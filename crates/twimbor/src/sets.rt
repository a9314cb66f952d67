// Sets of event codes: read from text, written as text, and asked.
ghost use Rattle.std.specs.Prelude.{◌≡◌};
ghost use Rattle.model.specs.Codes.{is_in, count_of, lowest_of};
ghost use Rattle.code_text.specs.CodeText.{read_codes};
ghost use Rattle.code_writer.specs.CodesWritten.{write_codes};
ghost use Rattle.results.specs.Results.{codes_result, text_result, lowest_result};

use model::Codes;
use results::{CodesResult, LowestResult, TextResult};

// The set that a text gives, as 0-15,66,70, or 20 for any other text.
#[unsafe(no_mangle)]
pub extern "C" fn twimbor_read_codes(text: &[u8]) -> CodesResult
    ensures { result ≡ codes_result (read_codes text.now) }
{
    CodesResult::from(code_text::read_codes(text))
}

// Writes a set's text at the start of the output and answers how many bytes it has, or 20 or 14, and leaves the output as it is.
#[unsafe(no_mangle)]
pub extern "C" fn twimbor_write_codes(codes: Codes, out: &mut [u8]) -> TextResult
    ensures value { result ≡ text_result (write_codes codes out.old).answer }
    ensures out_after { out.new ≡ (write_codes codes out.old).output }
{
    TextResult::from(code_writer::write_codes(codes, out))
}

// Whether a code is in the set; none above 255 is.
#[unsafe(no_mangle)]
pub extern "C" fn twimbor_codes_contain(codes: Codes, code: u32) -> bool
    ensures { result ≡ is_in codes code }
{
    codes::contains(codes, code)
}

// How many codes the set holds.
#[unsafe(no_mangle)]
pub extern "C" fn twimbor_codes_count(codes: Codes) -> u32
    ensures { result ≡ count_of codes }
{
    codes::count(codes)
}

// The lowest code of the set, or 20 if it is empty.
#[unsafe(no_mangle)]
pub extern "C" fn twimbor_codes_lowest(codes: Codes) -> LowestResult
    ensures { result ≡ lowest_result (lowest_of codes) }
{
    LowestResult::from(codes::lowest(codes))
}
