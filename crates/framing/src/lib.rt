// One RFC 4571 frame in a buffer.
#![tactic(auto)]

ghost use Rattle.std.specs.Prelude.{◌≡◌, ◌≤◌, length};
ghost use Rattle.framing.specs.Frame.{frame_at};

use big_endian::number_16;

// The places of a frame's packet, from `start` up to `end`.
#[derive(Clone, Copy)]
pub struct Frame {
    pub start: usize,
    pub end: usize,
}

// The whole frame at a place of a buffer. There is none where the rest of the buffer is nothing, one byte of a length, or a frame that the
// buffer's end cuts short.
#[tactic(auto, using(crate::proofs::Laws::framing))]
pub fn frame_at(s: &[u8], at: usize) -> Option<Frame>
    requires { at ≤ length s.now }
    ensures { result ≡ frame_at s.now at }
{
    let left = s.len() - at;
    if left < 2 {
        return None;
    }
    let length = usize::from(number_16(s, at));
    if left - 2 < length {
        return None;
    }
    Some(Frame {
        start: at + 2,
        end: at + 2 + length,
    })
}
