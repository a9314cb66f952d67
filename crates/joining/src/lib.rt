// Two segments of a code, or an event and a segment: whether the one continues the other, and what they make.
#![tactic(auto)]

ghost use Rattle.std.specs.Prelude.{◌≡◌, [], ◌+◌, ◌*◌, ◌≤◌};
ghost use Rattle.model.specs.Events.{continues, event_of};
ghost use Rattle.joining.specs.Joining.{lengthened};

use model::{Event, Segment};

// Whether a segment s continues p, the nearest earlier one of its code. The sum is taken in 64 bits, where it cannot wrap.
pub fn continues(p: Segment, s: Segment) -> bool
    ensures { result ≡ continues p s }
{
    !s.marked && !p.ended && u64::from(p.offset) + u64::from(p.duration) == u64::from(s.offset)
}

// The event of one segment that nothing continues.
#[tactic(auto, unfolding(model::specs::Events::units, model::specs::Events::loudest, model::specs::Events::quietest, model::specs::Events::last_ended))]
pub fn alone(first: Segment) -> Event
    ensures { (result ≡ event_of first []) × (result.length ≤ 65535) }
{
    Event {
        code: first.code,
        start: first.offset,
        length: u32::from(first.duration),
        volume: first.volume,
        quietest: first.quietest,
        began: first.marked,
        ended: first.ended,
    }
}

// An event that one segment more continues.
pub fn lengthened(v: Event, next: Segment) -> Event
    requires { v.length ≤ 128 * 65535 }
    ensures { (result ≡ lengthened v next) × (result.length ≤ v.length + 65535) }
{
    Event {
        length: v.length + u32::from(next.duration),
        volume: v.volume.min(next.volume),
        quietest: v.quietest.max(next.quietest),
        ended: next.ended,
        ..v
    }
}
