// The segments that a table holds, and the events that they make.
ghost use Rattle.std.specs.Prelude.{◌≡◌, length};
ghost use Rattle.grouping.specs.Places.{InRanges};

use joining::{alone, continues, lengthened};
use model::{Event, Segment};
use segment::segment_of;

// The key of each segment, in their order, and what was heard of each.
#[derive(Clone, Copy)]
pub struct Held<'a> {
    pub keys: &'a [u64],
    pub heard: &'a [u32],
    pub ghost as_many: { length heard.now ≡ length keys.now },
    pub ghost in_ranges: { InRanges keys.now heard.now (length keys.now) },
}

impl<'a> Held<'a> {
    ghost use Rattle.std.specs.Prelude.{◌<◌, take};
    ghost use Rattle.model.specs.Table.{segment_at};
    ghost use Rattle.grouping.specs.Events.{events_of};
    ghost use Rattle.grouping.specs.Places.{begins, event_from, events_in};

    // Those of a table: the first n places of its columns.
    #[tactic(auto, using(crate::proofs::Firsts::same_events))]
    pub fn of(keys: &'a [u64; 128], heard: &'a [u32; 128], n: usize) -> Self
        requires { InRanges keys.now heard.now n }
        ensures places { length result.keys.now ≡ n }
        ensures keys_value { result.keys.now ≡ take n keys.now }
        ensures heard_value { result.heard.now ≡ take n heard.now }
        ensures events { events_of result ≡ events_in keys.now heard.now n }
    {
        Held {
            keys: &keys[..n],
            heard: &heard[..n],
        }
    }

    // The segment at place i.
    fn segment(self, i: usize) -> Segment
        requires { i < length self.keys.now }
        ensures { result ≡ segment_at self.entry.keys.now self.entry.heard.now i }
    {
        segment_of(self.keys[i], self.heard[i])
    }

    // Whether the segment at place i begins an event. Of an earlier segment only the key is read, until the nearest of its code is
    // met. A marked segment continues none and need not look back.
    #[tactic(auto, using(crate::proofs::Laws::grouping))]
    pub fn begins(self, i: usize) -> bool
        requires { i < length self.keys.now }
        ensures { result ≡ begins self.entry.keys.now self.entry.heard.now i }
    {
        let here = self.segment(i);
        if here.marked {
            return true;
        }
        let code = self.keys[i] % 256;
        for j in (0..i).rev() {
            if self.keys[j] % 256 == code {
                return !continues(self.segment(j), here);
            }
        }
        true
    }

    // How many events there are.
    pub fn count(self) -> usize
        ensures { result ≡ length (events_of self.entry) }
    {
        let mut count = 0;
        for i in 0..self.keys.len() {
            count += usize::from(self.begins(i));
        }
        count
    }

    // The event that the segment at place i begins. Nothing continues a segment with E, so after one it looks no further. Of a later
    // segment only the key is read, unless it has the code.
    #[tactic(auto, using(crate::proofs::Laws::grouping))]
    pub fn event_from(self, i: usize) -> Event
        requires { i < length self.keys.now }
        ensures { result ≡ event_from self.entry.keys.now self.entry.heard.now (length self.entry.keys.now) i }
    {
        let code = self.keys[i] % 256;
        let first = self.segment(i);
        let mut v = alone(first);
        if first.ended {
            return v;
        }
        let mut last = first;
        for j in i + 1..self.keys.len() {
            if self.keys[j] % 256 == code {
                let next = self.segment(j);
                if !continues(last, next) {
                    return v;
                }
                v = lengthened(v, next);
                last = next;
            }
        }
        v
    }
}
