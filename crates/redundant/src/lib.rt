// The receiving call for packets that may be redundant (RFC 2198), in place on a table whose columns are lent.
#![tactic(auto)]

ghost use Rattle.std.specs.Prelude.{◌≡◌, length};
ghost use Rattle.refusals.specs.Refusals.{number_of};
ghost use Rattle.model.specs.Table.{table_of, holding};
ghost use Rattle.model.specs.Redundant.{receive_redundant};
ghost use Rattle.locating.specs.Located.{Locates};
ghost use Rattle.redundant.specs.Takes.{TakesReports};

use block_taking::take_or_pass;
use blocks::step::block_at;
use locating::{Located, first_block, locate};
use model::{BlocksReceived, Head};
use receive::Tested;
use refusals::Refusal;

// Takes the blocks of the event's type, a plain packet's one among them, and passes over the others. Answers how many it took.
#[tactic(auto, using(crate::proofs::Blockwise::blockwise))]
fn take_blocks(table: &mut Tested, packet: &[u8], located: Located, entries: &mut [u32]) -> usize
    requires { Locates table.old.head packet.now (length entries.old) located }
    ensures { TakesReports table.old packet.now entries.old result table.new entries.new }
{
    let Located {
        timestamp,
        marked,
        ..
    } = located;
    let mut taken = 0;
    let mut next = first_block(table.head.payload_type, packet, located);
    while let Some(block) = next {
        taken = take_or_pass(table, packet, timestamp, marked, block, taken, entries);
        next = block_at(packet, block.after);
    }
    taken
}

// An answer that refuses the packet whole.
fn refused_whole(refusal: Refusal, count: usize) -> BlocksReceived
    ensures { result ≡ record { blocks = 0; count = count; refusal = number_of refusal } }
{
    BlocksReceived {
        blocks: 0,
        count,
        refusal: refusal as u8,
    }
}

// Receives a packet that may be redundant: each block of the event's type, a plain packet being one, is taken or refused with 7 to 11 or
// 17 by itself, and its answer goes into an entry. Or the packet is refused whole, with 16, 1 to 6, 18, 19, or 15 if there are fewer
// entries than such blocks, and table and entries are as they were.
#[tactic(auto, using(crate::proofs::Ways::ways))]
pub fn receive_redundant(
    head: Head,
    keys: &mut [u64; 128],
    heard: &mut [u32; 128],
    packet: &[u8],
    entries: &mut [u32],
) -> BlocksReceived
    ensures value { result ≡ (receive_redundant (table_of head keys.old heard.old) packet.now entries.old).answer }
    ensures heard_after { table_of (holding result.count head) keys.new heard.new
        ≡ (receive_redundant (table_of head keys.old heard.old) packet.now entries.old).table }
    ensures entries_after { entries.new
        ≡ (receive_redundant (table_of head keys.old heard.old) packet.now entries.old).entries }
{
    if !valid::is_valid(head, keys, heard) {
        return refused_whole(Refusal::InvalidTable, head.count);
    }
    let located = match locate(head, packet, entries.len()) {
        Ok(located) => located,
        Err(refusal) => return refused_whole(refusal, head.count),
    };
    let mut table = Tested { head, keys, heard };
    let blocks = take_blocks(&mut table, packet, located, entries);
    BlocksReceived {
        blocks,
        count: table.head.count,
        refusal: 0,
    }
}
