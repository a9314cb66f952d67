// The pieces of a redundant packet in a lent output. With n older reports the last block's header stands at 12 + 4 n, the data after it.
#![tactic(auto)]

ghost use Rattle.std.specs.Prelude.{◌≡◌, ◌+◌, ◌*◌, ◌≤◌, ◌<◌, length};
ghost use Rattle.model.specs.Blocks.{header_of};
ghost use Rattle.model.specs.WriteRedundant.{older_written};
ghost use Rattle.block_pieces.specs.Pieces.{OlderAsked, EndsAsked, ends_put, older_put};

use model::{OlderReport, Report};
use writer::{flagged, put, put_header, put_payload};

// The 4 bytes of an older block's header: F set, the payload type, the offset in 14 bits, and the length 4 in 10.
#[tactic(auto, using(crate::proofs::Puts::putting))]
fn older_header(r: Report, o: OlderReport) -> [u8; 4]
    requires { OlderAsked r o }
    ensures { result ≡ header_of (older_written r o) }
{
    let x = r.timestamp.wrapping_sub(o.timestamp) * 1024 + 4;
    let [_, top, high, low] = x.to_be_bytes();
    [flagged(true, r.payload_type), top, high, low]
}

// Puts the header and the data of older block i of n.
#[tactic(auto, using(crate::proofs::Puts::putting))]
pub fn put_older(r: Report, o: OlderReport, i: usize, n: usize, out: &mut [u8])
    requires older_asked { OlderAsked r o }
    requires i_lt_n { i < n }
    requires n_bound { n ≤ 2 }
    requires n_in_bounds { 17 + 8 * n ≤ length out.old }
    ensures { out.new ≡ older_put r o i n out.old }
{
    let h = older_header(r, o);
    put(&h, 12 + 4 * i, out);
    put_payload(
        o.code,
        o.ended,
        o.volume,
        o.duration,
        13 + 4 * n + 4 * i,
        out,
    );
}

// Puts the packet's header, and the header, F clear, and the data of its last block, the primary.
#[tactic(auto, using(crate::proofs::Puts::putting))]
pub fn put_ends(r: Report, redundant_type: u32, n: usize, out: &mut [u8])
    requires ends_asked { EndsAsked r redundant_type }
    requires n_bound { n ≤ 2 }
    requires n_in_bounds { 17 + 8 * n ≤ length out.old }
    ensures { out.new ≡ ends_put r redundant_type n out.old }
{
    put_header(r, redundant_type, out);
    out[12 + 4 * n] = flagged(false, r.payload_type);
    put_payload(r.code, r.ended, r.volume, r.duration, 13 + 8 * n, out);
}
