// Sets of codes: their words, their text, and which codes they hold.
use crate::row::Numbers;
use crate::show;
use model::{Codes, Table};
use std::io::Stdout;

// How many codes a set holds, its lowest, and its text.
fn told(to: Stdout, codes: Codes) {
    show::told(to, [u64::from(codes::count(codes))]);
    match codes::lowest(codes) {
        Ok(code) => show::numbers(to, [u64::from(code)]),
        Err(refusal) => show::refused(to, refusal),
    }
    let mut out = [0; 609];
    match code_writer::write_codes(codes, &mut out) {
        Ok(bytes) => {
            show::text(to, b" ");
            show::text(to, out.get(..bytes).unwrap_or(&[]));
            show::answer(to, 0);
        }
        Err(refusal) => show::refused(to, refusal),
    }
}

pub fn read(to: Stdout, text: &[u8]) {
    match code_text::read_codes(text) {
        Ok(codes) => told(to, codes),
        Err(refusal) => show::refused(to, refusal),
    }
}

// The set that calls then have: eight words of 32 bits.
pub fn set(to: Stdout, table: &mut Table, mut numbers: Numbers) {
    table.head.codes = Codes {
        from_0: numbers.long(),
        from_64: numbers.long(),
        from_128: numbers.long(),
        from_192: numbers.long(),
    };
    told(to, table.head.codes)
}

// A set written with the first bytes of 12 lent: all 12, and how many the text has.
pub fn lent(to: Stdout, codes: Codes, mut numbers: Numbers) {
    let mut out = [b'#'; 12];
    let room = numbers.size();
    if 12 < room {
        return;
    }
    let room = &mut out[..room];
    let answer = code_writer::write_codes(codes, room);
    show::text(to, b" ");
    show::text(to, &out);
    match answer {
        Ok(bytes) => {
            show::numbers(to, [bytes as u64]);
            show::answer(to, 0);
        }
        Err(refusal) => show::refused(to, refusal),
    }
}

pub fn contains(to: Stdout, codes: Codes, mut numbers: Numbers) {
    show::told(to, [u64::from(codes::contains(codes, numbers.number()))]);
}
