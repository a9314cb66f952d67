// What a payload says, at its timestamp and with its marker, as a table with this head hears it. No segment takes part.
#![tactic(auto)]

ghost use Rattle.std.specs.Prelude.{◌≡◌};
ghost use Rattle.refusals.specs.Refusals.{told};
ghost use Rattle.hearing.specs.Sayings.{arrival, nothing_heard, hearing_of};

use model::Head;
use payload::payload_of;
use refusals::Refusal;
use segment::{heard_of, key_of};

// The two numbers of the segment that a report says something of.
#[derive(Clone, Copy, Debug, PartialEq, Eq)]
pub struct Heard {
    pub key: u64,
    pub told: u32,
}

// Hears a payload, or refuses it with 17 or 7, with 8 if its code is not in the table's set, or with 9 or 10.
#[tactic(auto, using(crate::proofs::Hears::hears))]
pub fn hear(head: Head, timestamp: u32, marked: bool, payload: &[u8]) -> Result<Heard, Refusal>
    ensures { told nothing_heard result ≡ hearing_of head (arrival timestamp marked payload.now) }
{
    let report = payload_of(head.codes, payload)?;
    let offset = timestamp.wrapping_sub(head.origin);
    if 0x8000_0000 <= offset {
        return Err(Refusal::OffsetTooLarge);
    }
    Ok(Heard {
        key: key_of(offset, report.code),
        told: heard_of(report.duration, report.volume, report.ended, marked),
    })
}
