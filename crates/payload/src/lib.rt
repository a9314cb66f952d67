// The second stage of reading: the payload, which is one report (RFC 4733, 2.3).
#![tactic(auto)]

ghost use Rattle.std.specs.Prelude.{◌≡◌};
ghost use Rattle.refusals.specs.Refusals.{told};
ghost use Rattle.payload.specs.Stage.{no_payload, payload_of};

use big_endian::number_16;
use codes::contains_byte;
use model::Codes;
use refusals::Refusal;

// The payload's fields.
#[derive(Clone, Copy, Debug, PartialEq, Eq)]
pub struct Payload {
    pub code: u8,
    pub ended: bool,
    pub volume: u8,
    pub duration: u16,
}

// Reads a payload: refusal 17 or 7, 8 if its code is not in the set, or 9.
#[tactic(auto, using(crate::proofs::Laws::reporting))]
pub fn payload_of(codes: Codes, p: &[u8]) -> Result<Payload, Refusal>
    ensures { told no_payload result ≡ payload_of codes p.now }
{
    if p.len() != 4 {
        return Err(if p.len() < 8 || p.len() % 4 != 0 {
            Refusal::NotOneReport
        } else {
            Refusal::Packed
        });
    }
    let code = p[0];
    if !contains_byte(codes, code) {
        return Err(Refusal::CodeNotInSet);
    }
    let duration = number_16(p, 2);
    if duration == 0 {
        return Err(Refusal::NoDuration);
    }
    let end_and_volume = p[1];
    Ok(Payload {
        code,
        ended: end_and_volume / 128 == 1,
        volume: end_and_volume % 64,
        duration,
    })
}
