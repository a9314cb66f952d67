// What the listing program counts.
ghost use Rattle.std.specs.Prelude.{◌≡◌};
ghost use Rattle.pieces.specs.Input.{added};

use model::Captured;

// How many packets were taken, how many were refused, and how many of these for being packed.
#[derive(Clone, Copy, Debug, Default, PartialEq, Eq)]
pub struct Counts {
    pub taken: u64,
    pub refused: u64,
    pub packed: u64,
}

impl Counts {
    // The counts after one piece of the capture more.
    pub fn added(self, piece: Captured) -> Counts
        ensures { result ≡ added self piece }
    {
        Counts {
            taken: self.taken.wrapping_add(piece.taken as u64),
            refused: self.refused.wrapping_add(piece.refused as u64),
            packed: self.packed.wrapping_add(piece.packed as u64),
        }
    }
}
