// A set of event codes with the codes of a range besides.
#![tactic(auto, using(crate::proofs::Laws::ranging_codes))]

ghost use Rattle.std.specs.Prelude.{◌≡◌, ◌≤◌, ◌&&◌, leb, ltb};
ghost use Rattle.model.specs.Codes.{word};
ghost use Rattle.code_ranges.specs.Ranges.{with_range};

use model::Codes;

// The codes from the first up to the last, which for a single code are one.
#[derive(Clone, Copy)]
pub struct Range {
    pub first: u32,
    pub last: u32,
    pub ghost in_order: { first ≤ last },
    pub ghost small: { last ≤ 255 },
}

// The codes below n, of the 64 that one word tells of.
fn word_below(n: u32, from: u32) -> u64
    requires { from ≤ 192 }
    ensures { result ≡ word (λ c. ltb c n) from 64 }
{
    if n <= from {
        0
    } else if from + 64 <= n {
        u64::MAX
    } else {
        (1 << (n - from)) - 1
    }
}

// The codes of a range, of the 64 that one word tells of: those below its end, but for those below its first.
fn word_of(range: Range, from: u32) -> u64
    requires { from ≤ 192 }
    ensures { result ≡ word (λ c. leb range.first c && leb c range.last) from 64 }
{
    // Most codes are low: only the first word tells of them.
    if range.last < from {
        return 0;
    }
    word_below(range.last + 1, from) ^ word_below(range.first, from)
}

// The set with the codes of a range besides.
pub fn with_range(codes: Codes, range: Range) -> Codes
    ensures { result ≡ with_range codes range.first range.last }
{
    Codes {
        from_0: codes.from_0 | word_of(range, 0),
        from_64: codes.from_64 | word_of(range, 64),
        from_128: codes.from_128 | word_of(range, 128),
        from_192: codes.from_192 | word_of(range, 192),
    }
}
