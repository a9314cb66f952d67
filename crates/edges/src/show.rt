// What is printed after a row. Each text is written by itself, and left out where it cannot be written.
use refusals::Refusal;
use std::io::Stdout;

pub fn text(to: Stdout, text: &[u8]) {
    let _ = to.write_all(text);
}

// Numbers, each after a blank.
pub fn numbers<const N: usize>(to: Stdout, numbers: [u64; N]) {
    for n in numbers {
        text(to, b" ");
        let _ = print!(to; "{n}");
    }
}

// The numbers that are told.
pub fn told<const N: usize>(to: Stdout, values: [u64; N]) {
    text(to, b" =");
    numbers(to, values);
}

// 0 where nothing was refused, else the refusal's number.
pub fn answer(to: Stdout, n: u64) {
    text(to, b" ->");
    numbers(to, [n]);
}

pub fn refused(to: Stdout, refusal: Refusal) {
    answer(to, u64::from(u8::from(refusal)));
}

// What a call answered: its numbers, or its refusal.
pub fn answered<const N: usize>(to: Stdout, values: Result<[u64; N], Refusal>) {
    match values {
        Ok(values) => {
            told(to, values);
            answer(to, 0);
        }
        Err(refusal) => refused(to, refusal),
    }
}

// All bytes of an output, on a line of their own.
pub fn bytes(to: Stdout, bytes: &[u8]) {
    text(to, b"\n");
    for byte in bytes {
        text(to, b" ");
        let _ = print!(to; "{byte:02x}");
    }
}
