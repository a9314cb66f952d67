// One block of a packet, heard and its answer entered, or passed over.
#![tactic(auto)]

ghost use Rattle.std.specs.Prelude.{◌≡◌, ◌≤◌, ◌<◌};
ghost use Rattle.model.specs.Redundant.{entry_of};
ghost use Rattle.block_taking.specs.Enters.{InPlace, Ready, EntersBlock, EntersOrPasses};

use blocks::step::Block;
use model::Received;
use receive::Tested;

// An answer in one number.
fn entry_of(got: Received) -> u32
    requires refusal_bound { got.refusal < 256 }
    requires probes_bound { got.probes ≤ 8 }
    ensures { result ≡ entry_of got }
{
    let low = got.refusal as u32;
    let looked = 65536 * (got.probes as u32);
    // A number made of the flag would be loaded in four bytes, right after one was stored.
    if got.is_new {
        low + (256 + looked)
    } else {
        low + looked
    }
}

// Hears a block of a packet of this timestamp and marker, and enters its answer at place i. M counts on the primary alone.
#[tactic(auto, using(crate::proofs::Takings::taking))]
fn take_block(
    table: &mut Tested,
    packet: &[u8],
    time: u32,
    marked: bool,
    block: Block,
    i: usize,
    entries: &mut [u32],
)
    requires { InPlace packet.now block i entries.old }
    ensures { EntersBlock table.old packet.now time marked block i entries.old table.new entries.new }
{
    let Block { start, end, .. } = block;
    let own = time.wrapping_sub(u32::from(block.offset));
    let got = table.hear(own, marked && block.primary, &packet[start..end]);
    entries[i] = entry_of(got);
}

// The same for a block of any type: one of another type than the event's is passed over. Answers how many entries are written.
#[tactic(auto, using(crate::proofs::Takings::taking))]
pub fn take_or_pass(
    table: &mut Tested,
    packet: &[u8],
    time: u32,
    marked: bool,
    block: Block,
    i: usize,
    entries: &mut [u32],
) -> usize
    requires { Ready table.old packet.now block i entries.old }
    ensures { EntersOrPasses table.old packet.now time marked block i entries.old result table.new entries.new }
{
    if block.payload_type != table.head.payload_type {
        return i;
    }
    take_block(table, packet, time, marked, block, i, entries);
    i + 1
}
