// A segment and the two numbers that a table keeps it in, both ways, for whoever stores a table or builds one. Any numbers are answered.
#![tactic(auto)]

ghost use Rattle.std.specs.Prelude.{◌+◌, ◌*◌, ◌%◌, ◌≤◌, ◌≡◌, cond, leb};
ghost use Rattle.model.specs.Packet.{bit};
ghost use Rattle.segment_numbers.specs.BothWays.{segment_shown, numbers_of};

use model::Segment;
use segment::{key_of, segment_of};

// A segment's key, and what was heard of it.
#[repr(C)]
#[derive(Clone, Copy)]
pub struct SegmentNumbers {
    pub key: u64,
    pub heard: u32,
}

// The segment of two numbers. An offset of more than 32 bits, which no table may hold, is shown as the largest.
pub fn segment_shown(key: u64, heard: u32) -> Segment
    ensures { result ≡ segment_shown key heard }
{
    if key < 0x100_0000_0000 {
        segment_of(key, heard)
    } else {
        segment_of(0xff_ffff_ff00 + key % 256, heard)
    }
}

// The two numbers of a segment. A quietest above 63 has no room: the volume is then put as 255, which no table may hold.
pub fn numbers_of(s: Segment) -> SegmentNumbers
    ensures { result ≡ numbers_of s }
{
    let volume = if s.quietest <= 63 { s.volume } else { 255 };
    SegmentNumbers {
        key: key_of(s.offset, s.code),
        heard: u32::from(s.duration)
            + 0x1_0000 * u32::from(s.ended)
            + 0x2_0000 * u32::from(s.marked)
            + 0x4_0000 * u32::from(s.quietest % 64)
            + 0x100_0000 * u32::from(volume),
    }
}
