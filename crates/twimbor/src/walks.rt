// The walk over the blocks of a redundant packet.
ghost use Rattle.std.specs.Prelude.{◌≡◌};
ghost use Rattle.model.specs.Walk.{cursor, walk_start, block_step, header_step};

use model::{BlockStep, Cursor, HeaderStep, WalkStart};

// Where the walk over a packet's blocks starts, or 1 to 4, 18 or 19 and a cursor at which there is no block.
#[unsafe(no_mangle)]
pub extern "C" fn twimbor_walk_start(packet: &[u8]) -> WalkStart
    ensures { result ≡ walk_start packet.now }
{
    results::walk_started(blocks::step::walk_start(packet))
}

// The block at a cursor, whatever its numbers, and the cursor after it.
#[unsafe(no_mangle)]
pub extern "C" fn twimbor_block_step(packet: &[u8], cursor: Cursor) -> BlockStep
    ensures { result ≡ block_step packet.now cursor }
{
    blocks::step::block_step(packet, cursor)
}

// The same from the cursor's numbers, and in fewer, which C hands over in registers.
#[unsafe(no_mangle)]
pub extern "C" fn twimbor_header_step(
    packet: &[u8],
    header: usize,
    body: usize,
    end: usize,
) -> HeaderStep
    ensures { result ≡ header_step packet.now (cursor header body end) }
{
    blocks::step::header_step(packet, header, body, end)
}
