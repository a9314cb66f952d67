// What a capture comes to, frame by frame: the packets taken and refused, and the bytes used.
#![tactic(auto)]

ghost use Rattle.std.specs.Prelude.{◌≤◌, ◌≡◌};
ghost use Rattle.refusals.specs.Refusals.{number_of};
ghost use Rattle.tally.specs.Counts.{uncounted, none_yet, Room, one_more, captured};

use model::{Captured, Received};
use refusals::Refusal;

// An answer with nothing used or counted.
pub fn uncounted(refusal: Refusal, count: usize) -> Captured
    ensures { result ≡ uncounted (number_of refusal) count }
{
    Captured {
        refusal: refusal as u8,
        count,
        used: 0,
        taken: 0,
        refused: 0,
        packed: 0,
    }
}

// What has been received of a buffer: the segments held, the bytes used, the packets, those refused, and those refused with 17.
#[derive(Clone, Copy, Debug, PartialEq, Eq)]
pub struct Tally {
    pub count: usize,
    pub used: usize,
    pub packets: usize,
    pub refused: usize,
    pub packed: usize,
}

impl Tally {
    // Nothing yet, in a table of so many segments.
    pub fn none_yet(count: usize) -> Self
        ensures { result ≡ none_yet count }
    {
        Tally {
            count,
            used: 0,
            packets: 0,
            refused: 0,
            packed: 0,
        }
    }

    // The tally after one frame more, by where it ends and what its packet was answered.
    pub fn one_more(self, got: Received, end: usize) -> Self
        requires { Room self end }
        ensures { result ≡ one_more self got end }
    {
        Tally {
            count: got.count,
            used: end,
            packets: self.packets + 1,
            refused: self.refused + usize::from(got.refusal != 0),
            packed: self.packed + usize::from(got.refusal == Refusal::Packed as u64),
        }
    }

    // The answer that it comes to.
    pub fn captured(self) -> Captured
        requires { self.refused ≤ self.packets }
        ensures { result ≡ captured self }
    {
        Captured {
            refusal: 0,
            count: self.count,
            used: self.used,
            taken: self.packets - self.refused,
            refused: self.refused,
            packed: self.packed,
        }
    }
}
