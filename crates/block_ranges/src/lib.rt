// The ranges of refusal 12 for a redundant packet: its types, and each report's numbers.
#![tactic(auto)]

ghost use Rattle.std.specs.Prelude.{◌≡◌};
ghost use Rattle.model.specs.Table.{types_differ};
ghost use Rattle.model.specs.WriteRedundant.{older_given, older_in_range, all_older_in_range, redundant_in_range};

use codes::contains;
use model::{Codes, OlderReport, Report};
use writer::in_range;

// Whether both payload types are up to 127 and differ.
fn types_differ(payload_type: u32, redundant_type: u32) -> bool
    ensures { result ≡ types_differ payload_type redundant_type }
{
    payload_type <= 127 && redundant_type <= 127 && payload_type != redundant_type
}

// Whether an older report's numbers are in the ranges of refusal 12, its code in the set, and its offset in 14 bits.
#[tactic(auto, using(model::proofs::Minus::wrapped))]
fn older_in_range(codes: Codes, r: Report, o: OlderReport) -> bool
    ensures { result ≡ older_in_range codes r o }
{
    contains(codes, o.code)
        && o.volume <= 63
        && 1 <= o.duration
        && o.duration <= 65535
        && r.timestamp.wrapping_sub(o.timestamp) <= 16383
}

// Whether those that are counted are; the others are not looked at.
#[tactic(auto, unfolding(model::specs::WriteRedundant::all_older_in_range))]
fn all_older_in_range(
    codes: Codes,
    r: Report,
    count: u32,
    first: OlderReport,
    second: OlderReport,
) -> bool
    ensures { result ≡ all_older_in_range codes r (older_given count first second) }
{
    match count {
        0 => true,
        1 => older_in_range(codes, r, first),
        _ => older_in_range(codes, r, first) && older_in_range(codes, r, second),
    }
}

// Whether nothing is refused with 12.
pub fn redundant_in_range(
    codes: Codes,
    r: Report,
    redundant_type: u32,
    count: u32,
    first: OlderReport,
    second: OlderReport,
) -> bool
    ensures { result ≡ redundant_in_range codes r redundant_type count first second }
{
    in_range(codes, r)
        && types_differ(r.payload_type, redundant_type)
        && count <= 2
        && all_older_in_range(codes, r, count, first, second)
}
