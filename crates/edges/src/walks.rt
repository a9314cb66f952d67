// Walks over the blocks of a redundant packet.
use crate::row::Numbers;
use crate::show;
use blocks::step::block_step;
use model::Cursor;
use std::io::Stdout;
use walker::Walker;

// A block: its type, its offset, its data's places, and whether it is the primary.
fn block(to: Stdout, payload_type: u8, offset: u16, start: usize, end: usize, primary: bool) {
    show::text(to, b" |");
    show::numbers(
        to,
        [
            u64::from(payload_type),
            u64::from(offset),
            start as u64,
            end as u64,
            u64::from(primary),
        ],
    );
}

// The first eight blocks, and whether the walk starts.
pub fn walk(to: Stdout, packet: &[u8]) {
    match Walker::start(packet) {
        Ok(walker) => {
            for part in walker.take(8) {
                let b = part.block;
                block(to, b.payload_type, b.offset, b.start, b.end, b.primary);
            }
            show::answer(to, 0);
        }
        Err(refusal) => show::refused(to, refusal),
    }
}

// The block at a cursor, the cursor after it, and whether there is one.
pub fn step(to: Stdout, mut numbers: Numbers, packet: &[u8]) {
    // the first says how many bytes are lent
    numbers.number();
    let cursor = Cursor {
        header: numbers.number() as usize,
        body: numbers.number() as usize,
        end: numbers.number() as usize,
    };
    let s = block_step(packet, cursor);
    block(to, s.payload_type, s.offset, s.start, s.end, s.primary);
    let after = s.after;
    show::numbers(
        to,
        [after.header as u64, after.body as u64, after.end as u64],
    );
    show::answer(to, u64::from(s.found));
}
