// The steps of receiving a packet: its header and its payload.
ghost use Rattle.std.specs.Prelude.{◌≡◌};
ghost use Rattle.refusals.specs.Refusals.{told};
ghost use Rattle.model.specs.Receive.{refusal_for};
ghost use Rattle.header.specs.Reads.{ReadsUnless};
ghost use Rattle.hearing.specs.Sayings.{nothing_heard};
ghost use Rattle.receive.specs.Steps.{hearing_in};

use header::Header;
use hearing::{Heard, hear};
use model::Head;
use refusals::Refusal;

// Reads the header of a packet as far as its payload's place, and refuses one that is not the table's: 1 to 6. The call for both types has a
// step like it: one over a closure would have to say the refusals once more.
#[tactic(auto, using(crate::proofs::Stepwise::steps))]
pub(crate) fn header_for<'a>(head: Head, packet: &'a [u8]) -> Result<Header<'a>, Refusal>
    ensures { ReadsUnless (refusal_for head packet.now) packet.entry result }
{
    let header = Header::read(packet)?;
    if header.fixed.payload_type() != head.payload_type {
        return Err(Refusal::OtherPayloadType);
    }
    if header.fixed.ssrc() != head.ssrc {
        return Err(Refusal::OtherSsrc);
    }
    Ok(header)
}

// Hears a packet: 1 to 6, then 17 or 7, and 8 to 10.
#[tactic(auto, using(crate::proofs::Stepwise::steps))]
#[inline(always)]
pub(crate) fn hear_packet(head: Head, packet: &[u8]) -> Result<Heard, Refusal>
    ensures { told nothing_heard result ≡ hearing_in head packet.now }
{
    let header = header_for(head, packet)?;
    hear(
        head,
        header.fixed.timestamp(),
        header.fixed.marker(),
        header.payload(),
    )
}
