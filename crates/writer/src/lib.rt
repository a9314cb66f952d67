// Writing a report's 16 bytes into a lent output.
#![tactic(auto)]

ghost use Rattle.std.specs.Prelude.{◌≡◌, ◌+◌, ◌*◌, ◌/◌, ◌%◌, ◌≤◌, length};
ghost use Rattle.refusals.specs.Refusals.{told};
ghost use Rattle.model.specs.Packet.{bit, header_bytes, payload_bytes, report_in_range, write};
ghost use Rattle.writer.specs.Pieces.{PayloadInRange, put_at};

use codes::contains;
use model::{Codes, Report};
use refusals::Refusal;

// A byte with a flag above seven bits.
pub fn flagged(flag: bool, low: u32) -> u8
    requires { low ≤ 127 }
    ensures { result ≡ bit flag * 128 + low }
{
    (128 * u32::from(flag) + low) as u8
}

// Whether a report's numbers are in the ranges of refusal 12, and its code in the set.
#[tactic(auto, unfolding(model::specs::Packet::report_in_range))]
pub fn in_range(codes: Codes, r: Report) -> bool
    ensures { result ≡ report_in_range codes r }
{
    r.payload_type <= 127
        && contains(codes, r.code)
        && r.volume <= 63
        && 1 <= r.duration
        && r.duration <= 65535
}

// The 12 bytes of a header with a report's numbers and a payload type: version 2, and P, X and CSRC count all 0.
fn header_of(r: Report, payload_type: u32) -> [u8; 12]
    requires { payload_type ≤ 127 }
    ensures { result ≡ header_bytes r payload_type }
{
    let [q1, q0] = r.sequence.to_be_bytes();
    let [t3, t2, t1, t0] = r.timestamp.to_be_bytes();
    let [c3, c2, c1, c0] = r.ssrc.to_be_bytes();
    let flagged_type = flagged(r.marker, payload_type);
    [128, flagged_type, q1, q0, t3, t2, t1, t0, c3, c2, c1, c0]
}

// The 4 bytes of a payload: R is 0.
fn payload_of(code: u32, ended: bool, volume: u32, duration: u32) -> [u8; 4]
    requires { PayloadInRange code volume duration }
    ensures { result ≡ payload_bytes code ended volume duration }
{
    let [d1, d0] = (duration as u16).to_be_bytes();
    [code as u8, flagged(ended, volume), d1, d0]
}

// Puts bytes at a place of the output; the other bytes stay.
pub fn put(p: &[u8], at: usize, out: &mut [u8])
    requires { at + length p.now ≤ length out.old }
    ensures { out.new ≡ put_at p.now at out.old }
{
    out[at..at + p.len()].copy_from_slice(p);
}

pub fn put_header(r: Report, payload_type: u32, out: &mut [u8])
    requires payload_type_bound { payload_type ≤ 127 }
    requires in_bounds { 12 ≤ length out.old }
    ensures { out.new ≡ put_at (header_bytes r payload_type) 0 out.old }
{
    let h = header_of(r, payload_type);
    put(&h, 0, out);
}

pub fn put_payload(code: u32, ended: bool, volume: u32, duration: u32, at: usize, out: &mut [u8])
    requires payload_in_range { PayloadInRange code volume duration }
    requires at_in_bounds { at + 4 ≤ length out.old }
    ensures { out.new ≡ put_at (payload_bytes code ended volume duration) at out.old }
{
    let p = payload_of(code, ended, volume, duration);
    put(&p, at, out);
}

// Writes a report's 16 bytes at the start of the output, or refuses with 12, also for a code outside the set, or 14, and leaves the
// output as it is.
#[tactic(auto, using(crate::proofs::Writes::writing))]
pub fn write(codes: Codes, r: Report, out: &mut [u8]) -> Result<(), Refusal>
    ensures result_value { told tt result ≡ (write codes r out.old).answer }
    ensures out_after { out.new ≡ (write codes r out.old).output }
{
    if !in_range(codes, r) {
        return Err(Refusal::OutOfRange);
    }
    if out.len() < 16 {
        return Err(Refusal::OutputTooSmall);
    }
    put_header(r, r.payload_type, out);
    put_payload(r.code, r.ended, r.volume, r.duration, 12, out);
    Ok(())
}
