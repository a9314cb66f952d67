// A segment in two numbers: its key, and what was heard of it.
#![tactic(auto)]

ghost use Rattle.std.specs.Prelude.{◌≡◌, ◌+◌, ◌*◌, ◌≤◌, ◌<◌};
ghost use Rattle.model.specs.Packet.{bit};
ghost use Rattle.model.specs.Table.{segment_of};
ghost use Rattle.segment.specs.Merged.{merged_heard};

use model::Segment;

// The key of an offset and a code.
pub fn key_of(offset: u32, code: u8) -> u64
    ensures { result ≡ offset * 256 + code }
{
    u64::from(offset) * 256 + u64::from(code)
}

// What one report says of its segment: its volume is the smallest and the largest.
pub fn heard_of(duration: u16, volume: u8, ended: bool, marked: bool) -> u32
    requires { volume ≤ 63 }
    ensures { result ≡ duration + 0x1_0000 * (bit ended + 2 * (bit marked + 2 * (volume + 64 * volume))) }
{
    u32::from(duration)
        + 0x1_0000 * u32::from(ended)
        + 0x2_0000 * u32::from(marked)
        + 0x104_0000 * u32::from(volume)
}

// What two reports of one segment say together: the larger duration, E and M if either has it, the smaller and the larger volume number.
// The volume stands on top, so that the smaller of the two numbers has the smaller one.
#[tactic(auto, using(crate::proofs::Keys::merged_is))]
pub fn merged(told: u32, held: u32) -> u32
    ensures { result ≡ merged_heard told held }
{
    let duration = (told & 0xffff).max(held & 0xffff);
    let flags = (told | held) & 0x3_0000;
    let quietest = (told & 0xfc_0000).max(held & 0xfc_0000);
    let volume = told.min(held) & 0xff00_0000;
    duration + flags + quietest + volume
}

// The segment of two numbers, if its offset has the width of its type.
pub fn segment_of(key: u64, heard: u32) -> Segment
    requires { key < 0x100_0000_0000 }
    ensures { result ≡ segment_of key heard }
{
    Segment {
        offset: (key / 256) as u32,
        code: (key % 256) as u8,
        duration: (heard % 0x1_0000) as u16,
        volume: (heard / 0x100_0000) as u8,
        quietest: (heard / 0x4_0000 % 64) as u8,
        ended: heard / 0x1_0000 % 2 == 1,
        marked: heard / 0x2_0000 % 2 == 1,
    }
}
