// The packets on which the readers are compared: random bytes, with those that decide the answer drawn near its edges.
ghost use Rattle.std.specs.Prelude.{◌<◌, ◌≤◌};

use super::random::drawn;

const ROOM: usize = 80;

// The bytes of a packet are the first `len` of these.
#[derive(Drop)]
pub struct Sample {
    bytes: [u8; ROOM],
    len: usize,
    ghost fits: { len ≤ 80 },
}

// The first byte: version 2 in most packets, with any P, X and CSRC count.
fn first_byte(n: u32) -> u8 {
    if drawn(n, 1, 16) == 0 {
        drawn(n, 2, 256) as u8
    } else if drawn(n, 3, 2) == 0 {
        128 + drawn(n, 4, 4) as u8 * 16
    } else {
        128 + drawn(n, 5, 64) as u8
    }
}

// P.
fn has_padding(first: u8) -> bool {
    first & 0x20 != 0
}

// X.
fn has_extension(first: u8) -> bool {
    first & 0x10 != 0
}

// The extension's word count: few words in most packets.
fn words_of(n: u32) -> u16 {
    if drawn(n, 6, 16) == 0 {
        drawn(n, 7, 65536) as u16
    } else {
        drawn(n, 8, 4) as u16
    }
}

// The place after the CSRC list.
fn after_csrcs(first: u8) -> usize
    ensures { result ≤ 72 }
{
    12 + usize::from(first % 16) * 4
}

// The place after header, CSRC list and extension.
fn payload_start(n: u32, first: u8) -> usize
    ensures { result < 300000 }
{
    let start = after_csrcs(first);
    if has_extension(first) {
        start + 4 + usize::from(words_of(n)) * 4
    } else {
        start
    }
}

// How many bytes come after that: in most packets a payload's four, and one to eight of padding if P is set.
fn rest_of(n: u32, first: u8) -> usize
    ensures { result < 13 }
{
    if drawn(n, 9, 4) == 0 {
        drawn(n, 10, 13) as usize
    } else if has_padding(first) {
        5 + drawn(n, 11, 8) as usize
    } else {
        4
    }
}

// The packet's length: any, or what its parts need if there is room for that.
fn len_of(n: u32, first: u8, start: usize) -> usize
    requires { start < 300000 }
    ensures { result ≤ 80 }
{
    if drawn(n, 12, 4) == 0 {
        drawn(n, 13, 81) as usize
    } else {
        ROOM.min(start + rest_of(n, first))
    }
}

// A code: 0 to 16 in most packets.
fn code_of(n: u32) -> u8 {
    if drawn(n, 14, 8) == 0 {
        drawn(n, 15, 256) as u8
    } else {
        drawn(n, 16, 17) as u8
    }
}

// A duration: 0 or 1 in some packets.
fn duration_of(n: u32) -> u16 {
    if drawn(n, 17, 8) == 0 {
        drawn(n, 18, 2) as u16
    } else {
        drawn(n, 19, 65536) as u16
    }
}

// The pad count for so many bytes after the header: in most packets what leaves four of them, else up to one too many.
fn pad_count(n: u32, rest: usize) -> u8
    requires { rest ≤ 80 }
{
    if drawn(n, 20, 4) == 0 {
        drawn(n, 21, rest as u32 + 2) as u8
    } else if rest > 4 {
        (rest - 4) as u8
    } else {
        rest as u8
    }
}

// Puts bytes at a place, as many as there is room for.
fn put(bytes: &mut [u8; ROOM], at: usize, new: &[u8]) {
    if let Some(room) = bytes.get_mut(at..) {
        for (byte, value) in room.iter_mut().zip(new) {
            *byte = *value;
        }
    }
}

impl Sample {
    // Packet n.
    pub fn new(n: u32) -> Self {
        let mut bytes = [0; ROOM];
        for (byte, draw) in bytes.iter_mut().zip(100..) {
            *byte = drawn(n, draw, 256) as u8;
        }
        let first = first_byte(n);
        bytes[0] = first;
        if has_extension(first) {
            put(
                &mut bytes,
                after_csrcs(first) + 2,
                &words_of(n).to_be_bytes(),
            );
        }
        let start = payload_start(n, first);
        put(&mut bytes, start, &[code_of(n)]);
        put(&mut bytes, start + 2, &duration_of(n).to_be_bytes());
        let len = len_of(n, first, start);
        if has_padding(first) && start < len {
            bytes[len - 1] = pad_count(n, len - start);
        }
        Sample { bytes, len }
    }

    pub fn packet(&self) -> &[u8] {
        &self.bytes[..self.len]
    }
}
