// The types of the library. What they mean stands in specs/; there is no function here.
#![tactic(auto)]

// A set of event codes, 0 to 255, a bit for each: the lowest bit of `from_0` is code 0, the highest of `from_192` code 255.
#[repr(C)]
#[derive(Clone, Copy)]
pub struct Codes {
    pub from_0: u64,
    pub from_64: u64,
    pub from_128: u64,
    pub from_192: u64,
}

// One report on the wire: an RTP packet that carries one telephone event (RFC 3550, 5.1; RFC 4733, 2.3).
// Numbers with a range narrower than their type are tested by whoever takes a Report.
#[repr(C)]
#[derive(Clone, Copy, PartialEq, Eq)]
pub struct Report {
    pub marker: bool,
    pub payload_type: u32,
    pub sequence: u16,
    pub timestamp: u32,
    pub ssrc: u32,
    pub code: u32,
    pub ended: bool,
    pub volume: u32,
    pub duration: u32,
}

// What a sender plans for one event. `sequence` is the first sequence number, `start` the first timestamp, `segment_size` what
// each segment but the last holds, in timestamp units.
#[repr(C)]
#[derive(Clone, Copy)]
pub struct Plan {
    pub payload_type: u32,
    pub ssrc: u32,
    pub sequence: u16,
    pub start: u32,
    pub code: u32,
    pub volume: u32,
    pub length: u32,
    pub period: u32,
    pub segment_size: u32,
}

// A segment as the table keeps it: the largest duration, the smallest volume number (the loudest) and the largest (the quietest),
// whether E and M were heard.
// `offset` is document 01's term: (timestamp - origin) modulo 2^32.
#[repr(C)]
#[derive(Clone, Copy)]
pub struct Segment {
    pub offset: u32,
    pub code: u8,
    pub duration: u16,
    pub volume: u8,
    pub quietest: u8,
    pub ended: bool,
    pub marked: bool,
}

// What a table was opened with, and how many segments it holds. `both_types` is 0 in a table that was opened for one payload
// type, where nothing looks at `redundant_type`; else that is the payload type of redundant packets. It is no bool, so that every byte
// that is read back from a file stands for one of the two.
#[repr(C)]
#[derive(Clone, Copy)]
pub struct Head {
    pub payload_type: u8,
    pub both_types: u8,
    pub redundant_type: u8,
    pub ssrc: u32,
    pub origin: u32,
    pub codes: Codes,
    pub count: usize,
}

// The receiving table: the first `count` places of its two columns hold segments, by offset, then code. A segment is kept in
// two numbers, its key and what was heard of it (specs/Table.antt draws them).
#[repr(C)]
#[derive(Clone, Copy)]
pub struct Table {
    pub head: Head,
    pub keys: [u64; 128],
    pub heard: [u32; 128],
}

// One event of the list. `code` is the key, `start` an offset; `volume` and `quietest` are the smallest and the largest volume number;
// `began`: the first segment was marked; `ended`: the last segment has E.
#[repr(C)]
#[derive(Clone, Copy)]
pub struct Event {
    pub code: u8,
    pub start: u32,
    pub length: u32,
    pub volume: u8,
    pub quietest: u8,
    pub began: bool,
    pub ended: bool,
}

// What C is told from here on, but for `Lookup` and `Cursor`: a `Result` or an `Option` cannot cross to it, so the refusal's number or a
// flag stands beside the values.

// An opened table; refusal 0, or the refusal's number with the empty table of zeros.
#[repr(C)]
#[derive(Clone, Copy)]
pub struct Opened {
    pub table: Table,
    pub refusal: u8,
}

// Where the search for a pair among the segments held ends, and how many of them it looked at.
#[derive(Clone, Copy)]
pub struct Lookup {
    pub place: usize,
    pub probes: usize,
}

// What a receiving call answers beside the columns lent to it: refusal 0 and whether the segment is new, or the refusal's
// number; how many segments are held after it; and how many the search for the report's pair looked at, 0 if there was none.
// Why the refusal has 64 bits stands in docs/DECISIONS.md.
#[repr(C)]
#[derive(Clone, Copy)]
pub struct Received {
    pub refusal: u64,
    pub is_new: bool,
    pub count: usize,
    pub probes: usize,
}

// What receiving a whole capture answers beside the columns lent to it: refusal 0, or 16; how many segments are held after it; how many
// bytes of the buffer its whole frames use; and how many of their packets were taken, how many were refused, and how many of these
// with 17. Under 16 the count is as before, and the others are 0.
#[repr(C)]
#[derive(Clone, Copy)]
pub struct Captured {
    pub refusal: u8,
    pub count: usize,
    pub used: usize,
    pub taken: usize,
    pub refused: usize,
    pub packed: usize,
}

// Where a walk over the blocks of a redundant packet stands: the places of the next block's header and of its body, its data, and
// where the payload ends. At a cursor of zeros there is no block.
#[repr(C)]
#[derive(Clone, Copy)]
pub struct Cursor {
    pub header: usize,
    pub body: usize,
    pub end: usize,
}

// What the start of a walk answers: refusal 0 and the cursor at the first block, or the refusal's number and a cursor of zeros.
#[repr(C)]
#[derive(Clone, Copy)]
pub struct WalkStart {
    pub cursor: Cursor,
    pub refusal: u8,
}

// The block at a cursor: its payload type and timestamp offset, whether it is the primary, which is the last, and its data, from
// `start` up to `end` of the packet; and the cursor after it. If there are no more, `found` is false, the cursor is as it was, and
// the others are zeros.
#[repr(C)]
#[derive(Clone, Copy)]
pub struct BlockStep {
    pub after: Cursor,
    pub start: usize,
    pub end: usize,
    pub offset: u16,
    pub payload_type: u8,
    pub primary: bool,
    pub found: bool,
}

// The same step in fewer numbers, for a walker that keeps its cursor itself: where the next header stands, and what this one says. The
// length is that of an older block's data; it is 0 for the primary, whose data go to the payload's end. If there are no more, `found` is
// false, the place is as it was, and the others are zeros.
#[repr(C)]
#[derive(Clone, Copy)]
pub struct HeaderStep {
    pub next: usize,
    pub length: u16,
    pub offset: u16,
    pub payload_type: u8,
    pub primary: bool,
    pub found: bool,
}

// What receiving a packet that may be redundant answers beside the columns and entries lent to it: refusal 0 and how many entries were
// written, one for each block of the event's type, or the refusal's number and 0; and how many segments are held after it.
#[repr(C)]
#[derive(Clone, Copy)]
pub struct BlocksReceived {
    pub blocks: usize,
    pub count: usize,
    pub refusal: u8,
}

// An older report that a redundant packet repeats. A block has no marker, sequence number or SSRC of its own.
#[repr(C)]
#[derive(Clone, Copy)]
pub struct OlderReport {
    pub timestamp: u32,
    pub code: u32,
    pub ended: bool,
    pub volume: u32,
    pub duration: u32,
}

// What the list call answers beside the lent records: refusal 0 and the number of events, or the refusal's number and 0.
#[repr(C)]
#[derive(Clone, Copy)]
pub struct Listed {
    pub refusal: u8,
    pub events: usize,
}
