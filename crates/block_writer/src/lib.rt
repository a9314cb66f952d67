// Writing a report and up to two older ones, as the blocks of one redundant packet, into a lent output: n older ones make 17 + 8 n bytes.
#![tactic(auto)]

ghost use Rattle.std.specs.Prelude.{◌≡◌, ◌+◌, ◌*◌, ◌≤◌, length};
ghost use Rattle.refusals.specs.Refusals.{told};
ghost use Rattle.model.specs.Table.{place};
ghost use Rattle.model.specs.WriteRedundant.{older_given, redundant_packet_of, write_redundant};
ghost use Rattle.block_pieces.specs.Pieces.{BlocksAsked};

use block_pieces::{put_ends, put_older};
use block_ranges::redundant_in_range;
use model::{Codes, OlderReport, Report};
use refusals::Refusal;

// Puts the whole packet.
#[tactic(auto, using(crate::proofs::WritesBlocks::writing_blocks))]
fn put_blocks(
    r: Report,
    redundant_type: u32,
    count: u32,
    first: OlderReport,
    second: OlderReport,
    out: &mut [u8],
)
    requires blocks_asked { BlocksAsked r redundant_type count first second }
    requires count_in_bounds { 17 + 8 * count ≤ length out.old }
    ensures { out.new ≡ place (redundant_packet_of r redundant_type (older_given count first second)) out.old }
{
    let n = count as usize;
    put_ends(r, redundant_type, n, out);
    if n < 1 {
        return;
    }
    put_older(r, first, 0, n, out);
    if n < 2 {
        return;
    }
    put_older(r, second, 1, n, out);
}

// Writes a report and the older ones that are counted (C hands over two and a count), in the order given and before it, as one redundant
// packet at the start of the output, or refuses with 12, also for a code outside the set, or 14, and leaves the output as it is.
#[tactic(auto, using(crate::proofs::WritesBlocks::writing_blocks))]
pub fn write_redundant(
    codes: Codes,
    r: Report,
    redundant_type: u32,
    count: u32,
    first: OlderReport,
    second: OlderReport,
    out: &mut [u8],
) -> Result<(), Refusal>
    ensures result_value { told tt result ≡ (write_redundant codes r redundant_type count first second out.old).answer }
    ensures out_after { out.new ≡ (write_redundant codes r redundant_type count first second out.old).output }
{
    if !redundant_in_range(codes, r, redundant_type, count, first, second) {
        return Err(Refusal::OutOfRange);
    }
    if out.len() < 17 + 8 * (count as usize) {
        return Err(Refusal::OutputTooSmall);
    }
    put_blocks(r, redundant_type, count, first, second, out);
    Ok(())
}
