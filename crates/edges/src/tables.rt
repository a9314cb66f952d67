// The receiving table: made, received into, and told.
use crate::row::Numbers;
use crate::show;
use model::{Head, Received, Table};
use segment::key_of;
use std::io::Stdout;
use valid::Columns;

// The table before the first row: it was opened for nothing, and the set has the keys.
pub fn none() -> Table {
    opening::empty(Head {
        payload_type: 0,
        both_types: 0,
        redundant_type: 0,
        ssrc: 0,
        origin: 0,
        codes: codes::keys(),
        count: 0,
    })
}

fn columns(table: &Table) -> Columns<'_> {
    Columns {
        head: table.head,
        keys: &table.keys,
        heard: &table.heard,
    }
}

// Payload type, SSRC, origin. If they are refused, the table stays.
pub fn open(to: Stdout, table: &mut Table, mut numbers: Numbers) {
    let codes = table.head.codes;
    match opening::open(codes, numbers.number(), numbers.number(), numbers.number()) {
        Ok(opened) => {
            *table = opened;
            let head = opened.head;
            show::told(
                to,
                [
                    u64::from(head.payload_type),
                    u64::from(head.ssrc),
                    u64::from(head.origin),
                ],
            );
            show::answer(to, 0);
        }
        Err(refusal) => {
            show::told(to, [0; 3]);
            show::refused(to, refusal);
        }
    }
}

// Payload type, redundant payload type, SSRC, origin. If they are refused, the table stays.
pub fn open_redundant(to: Stdout, table: &mut Table, mut numbers: Numbers) {
    let opened = opening::open_redundant(
        table.head.codes,
        numbers.number(),
        numbers.number(),
        numbers.number(),
        numbers.number(),
    );
    match opened {
        Ok(opened) => {
            *table = opened;
            let head = opened.head;
            show::told(
                to,
                [
                    u64::from(head.payload_type),
                    u64::from(head.both_types),
                    u64::from(head.redundant_type),
                    u64::from(head.ssrc),
                    u64::from(head.origin),
                ],
            );
            show::answer(to, 0);
        }
        Err(refusal) => {
            show::told(to, [0; 5]);
            show::refused(to, refusal);
        }
    }
}

// What the table answers to a packet that it receives.
fn hear(table: &mut Table, packet: &[u8]) -> Received {
    let got = receive::receive(table.head, &mut table.keys, &mut table.heard, packet);
    table.head.count = got.count;
    got
}

// How many segments were looked at, how many are held; new, known or the refusal's number.
fn received(to: Stdout, got: Received) {
    show::numbers(to, [got.probes as u64, got.count as u64]);
    match got.refusal {
        0 if got.is_new => show::text(to, b" -> new"),
        0 => show::text(to, b" -> known"),
        refusal => show::answer(to, refusal),
    }
}

pub fn receive(to: Stdout, table: &mut Table, packet: &[u8]) {
    let got = hear(table, packet);
    show::text(to, b" =");
    received(to, got);
}

// A report for a table with payload type 101, SSRC 7 and origin 0.
fn packet_at(offset: u8, code: u8) -> [u8; 16] {
    [
        0x80, 0xE5, 0, 1, 0, 0, 0, offset, 0, 0, 0, 7, code, 10, 1, 0x90,
    ]
}

// The table emptied, and reports received at so many offsets, from the highest to the lowest.
pub fn fill(to: Stdout, table: &mut Table, mut numbers: Numbers) {
    table.head.count = 0;
    *table = opening::empty(table.head);
    for offset in (0..numbers.byte()).rev() {
        hear(table, &packet_at(offset, 5));
    }
    show::told(to, [table.head.count as u64]);
}

// Seven pairs of offset and code, and how many segments a copy of the table looks at for a report of each.
pub fn look(to: Stdout, table: Table, mut numbers: Numbers) {
    show::text(to, b" =");
    for _ in 0..7u8 {
        let packet = packet_at(numbers.byte(), numbers.byte());
        let mut copy = table;
        show::numbers(to, [hear(&mut copy, &packet).probes as u64]);
    }
}

// Duration, volume, quietest, E and M in one number.
fn heard_of(numbers: &mut Numbers) -> u32 {
    let duration = u32::from(numbers.short());
    let volume = u32::from(numbers.byte());
    let quietest = numbers.number() % 64;
    let ended = numbers.number() % 2;
    let marked = numbers.number() % 2;
    duration + 0x1_0000 * (ended + 2 * (marked + 2 * (quietest + 64 * volume)))
}

// A place, then offset, code, duration, volume, quietest, E and M of the segment that is put there; it is then the last one held.
pub fn put(table: &mut Table, mut numbers: Numbers) {
    let place = numbers.number() as usize;
    let key = key_of(numbers.number(), numbers.byte());
    if let Some(at) = table.keys.get_mut(place) {
        *at = key;
    }
    if let Some(at) = table.heard.get_mut(place) {
        *at = heard_of(&mut numbers);
    }
    table.head.count = place + 1;
}

// Payload type, both types, redundant type and count of a table that no call made: whether it passes the tests, and what it answers to
// no bytes.
pub fn table(to: Stdout, table: &mut Table, mut numbers: Numbers) {
    table.head.payload_type = numbers.byte();
    table.head.both_types = numbers.byte();
    table.head.redundant_type = numbers.byte();
    table.head.count = numbers.number() as usize;
    let passes = columns(table).is_valid();
    show::told(to, [u64::from(passes)]);
    show::text(to, b" |");
    let mut copy = *table;
    received(to, hear(&mut copy, b""));
}

// Offset, code, duration, volume, quietest, E and M of the segment at a place.
pub fn segment(to: Stdout, table: &Table, mut numbers: Numbers) {
    let place = numbers.size();
    let key = table.keys[place];
    let told = u64::from(table.heard[place]);
    show::told(
        to,
        [
            key / 256,
            key % 256,
            told % 0x1_0000,
            told / 0x100_0000,
            told / 0x4_0000 % 64,
            told / 0x1_0000 % 2,
            told / 0x2_0000 % 2,
        ],
    );
}

// The event at a number.
pub fn event(to: Stdout, table: &Table, mut numbers: Numbers) {
    let found = events::event_at(columns(table), numbers.number()).map(|event| [
        u64::from(event.code),
        u64::from(event.start),
        u64::from(event.length),
        u64::from(event.volume),
        u64::from(event.quietest),
        u64::from(event.began),
        u64::from(event.ended),
    ]);
    show::answered(to, found);
}

// What a copy of the table receives of frames: the segments held, the bytes used, and the packets taken, refused and packed.
pub fn capture(to: Stdout, mut table: Table, frames: &[u8]) {
    let got = capture::receive_capture(table.head, &mut table.keys, &mut table.heard, frames);
    show::told(
        to,
        [
            got.count as u64,
            got.used as u64,
            got.taken as u64,
            got.refused as u64,
            got.packed as u64,
        ],
    );
    show::answer(to, u64::from(got.refusal));
}

// What a copy of the table answers to a packet, with the first entries of four lent: the entries written, the segments held, all four
// entries, and the numbers in the first two places.
pub fn redundant(to: Stdout, table: Table, mut numbers: Numbers, packet: &[u8]) {
    let mut entries = [9; 4];
    let room = numbers.size();
    if 4 < room {
        return;
    }
    let room = &mut entries[..room];
    let mut keys = table.keys;
    let mut heard = table.heard;
    let got = redundant::receive_redundant(table.head, &mut keys, &mut heard, packet, room);
    show::told(to, [got.blocks as u64, got.count as u64]);
    show::text(to, b" |");
    show::numbers(to, entries.map(u64::from));
    show::text(to, b" |");
    show::numbers(
        to,
        [keys[0], u64::from(heard[0]), keys[1], u64::from(heard[1])],
    );
    show::answer(to, u64::from(got.refusal));
}
