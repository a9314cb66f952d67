// A capture, read in pieces into a buffer that stays the same, and received piece by piece.
#![tactic(auto)]

ghost use Rattle.std.specs.Prelude.{◌≡◌, ◌≤◌, length, MatchResult};
ghost use Rattle.pieces.specs.Input.{GoesOn, HasReceived};

mod counts;

use capture::receive_capture;
pub use counts::Counts;
use input::{Broken, keep, refill};
use receive::Tested;
use std::io::{Error, ErrorKind, Read};

// What has been received: the counts, and how many bytes of the input, at the front of the buffer, are left: a part of one frame.
#[derive(Clone, Copy)]
pub struct SoFar {
    pub counts: Counts,
    pub left: usize,
}

// Room for the longest frame, 65,537 bytes, and as much to read ahead.
fn buffer() -> [u8; 131072]
    ensures { 131072 ≡ length result }
{
    [0; 131072]
}

// Receives the buffer's first n bytes, and moves those that were not used to its front.
fn go_on(table: &mut Tested, so_far: SoFar, b: &mut [u8], n: usize) -> SoFar
    requires { n ≤ length b.old }
    ensures { GoesOn table.old so_far b.old n result table.new b.new }
{
    let got = receive_capture(table.head, table.keys, table.heard, &b[..n]);
    table.head.count = got.count;
    SoFar {
        counts: so_far.counts.added(got),
        left: keep(b, got.used, n),
    }
}

// Reads a capture up to its end or to a read that fails, and receives its frames. What is left in the buffer after a pass is a part of
// one frame, so there is always room to read more.
pub fn received<R: Read>(table: &mut Tested, input: &mut R) -> Result<SoFar, Broken<SoFar>>
    ensures { MatchResult result (λ so_far. HasReceived table.old so_far table.new) (λ broken. HasReceived table.old broken.before table.new) }
{
    let mut b = buffer();
    let mut so_far = SoFar {
        counts: Counts::default(),
        left: 0,
    };
    for _ in 0..u64::MAX {
        let from = so_far.left;
        match refill(input, &mut b, from) {
            Ok(0) => return Ok(so_far),
            Ok(bytes) => so_far = go_on(table, so_far, &mut b, from + bytes),
            Err(why) => return Err(Broken {
                before: so_far,
                why,
            }),
        }
    }
    Err(Broken {
        before: so_far,
        why: Error::from(ErrorKind::TimedOut),
    })
}
