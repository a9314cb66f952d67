// A segment and the two numbers that a table keeps it in, both ways.
ghost use Rattle.std.specs.Prelude.{◌≡◌};
ghost use Rattle.segment_numbers.specs.BothWays.{segment_shown, numbers_of};

use model::Segment;
use segment_numbers::{SegmentNumbers, numbers_of, segment_shown};

// The segment of a key and of what was heard; an offset of more than 32 bits is shown as the largest.
#[unsafe(no_mangle)]
pub extern "C" fn twimbor_segment_of_numbers(key: u64, heard: u32) -> Segment
    ensures { result ≡ segment_shown key heard }
{
    segment_shown(key, heard)
}

// A segment's key and what was heard of it; with a quietest above 63, which has no room, the volume is put as 255.
#[unsafe(no_mangle)]
pub extern "C" fn twimbor_numbers_of_segment(segment: Segment) -> SegmentNumbers
    ensures { result ≡ numbers_of segment }
{
    numbers_of(segment)
}
