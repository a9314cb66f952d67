// A whole capture in one call: the packets of a buffer's RFC 4571 frames, received in place one after another.
#![tactic(auto)]

ghost use Rattle.std.specs.Prelude.{◌≡◌};
ghost use Rattle.model.specs.Table.{table_of, holding};
ghost use Rattle.model.specs.Capture.{receive_capture};
ghost use Rattle.capture.specs.Receives.{ReceivesAll};

use framing::{Frame, frame_at};
use model::{Captured, Head};
use receive::Tested;
use refusals::Refusal;
use tally::{Tally, uncounted};

// Receives the packets of a buffer's whole frames one after another into a table that passes the tests.
#[tactic(auto, using(crate::proofs::Laws::capturing))]
pub fn receive_frames(table: &mut Tested, frames: &[u8]) -> Captured
    ensures { ReceivesAll table.old frames.now result table.new }
{
    let mut tally = Tally::none_yet(table.head.count);
    while let Some(Frame { start, end }) = frame_at(frames, tally.used) {
        let got = table.receive(&frames[start..end]);
        tally = tally.one_more(got, end);
    }
    tally.captured()
}

// Receives the packets of a buffer's whole frames one after another, tells how many were taken and how many refused, and how many
// bytes their frames use; or refuses them all with 16, and the table is as it was.
#[tactic(auto, using(crate::proofs::Laws::capturing))]
pub fn receive_capture(
    head: Head,
    keys: &mut [u64; 128],
    heard: &mut [u32; 128],
    frames: &[u8],
) -> Captured
    ensures value { result ≡ (receive_capture (table_of head keys.old heard.old) frames.now).answer }
    ensures heard_after { table_of (holding result.count head) keys.new heard.new
        ≡ (receive_capture (table_of head keys.old heard.old) frames.now).table }
{
    if !valid::is_valid(head, keys, heard) {
        return uncounted(Refusal::InvalidTable, head.count);
    }
    let mut table = Tested { head, keys, heard };
    receive_frames(&mut table, frames)
}
