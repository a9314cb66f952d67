// The place of a key among those held.
#![tactic(auto)]

ghost use Rattle.std.specs.Prelude.{◌≡◌};
ghost use Rattle.searching.specs.Seeks.{Finds, Seeks};

use model::Lookup;

// Where a key stands, or else where it belongs, and how many keys were looked at to find that.
#[derive(Clone, Copy, Debug, PartialEq, Eq)]
pub struct Sought {
    pub place: Result<usize, usize>,
    pub probes: usize,
}

// Where the wanted key stands or belongs, found by halving, and how many keys were looked at.
#[tactic(auto, using(crate::proofs::Laws::seeking))]
fn find(keys: &[u64], wanted: u64) -> Lookup
    ensures { Finds keys.now wanted result }
{
    // The library's search does not tell how many keys it looked at.
    let mut low = 0;
    let mut high = keys.len();
    let mut probes = 0;
    while low < high {
        let middle = (low + high) / 2;
        probes += 1;
        if keys[middle] < wanted {
            low = middle + 1;
        } else {
            high = middle;
        }
    }
    Lookup { place: low, probes }
}

// Looks a key up.
#[tactic(auto, using(crate::proofs::Laws::seeking))]
pub fn seek(keys: &[u64], wanted: u64) -> Sought
    ensures { Seeks keys.now wanted result }
{
    let Lookup { place, probes } = find(keys, wanted);
    let held = place < keys.len() && keys[place] == wanted;
    Sought {
        place: if held { Ok(place) } else { Err(place) },
        probes,
    }
}
