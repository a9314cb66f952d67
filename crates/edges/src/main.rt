// Makes the calls that standard input names, a row for each, and prints each row with what the call answered; the file stdout has
// what must come. docs/TESTDATA.md says how a row is written and where the answers come from.
#![tactic(auto)]

mod given;
mod packets;
mod row;
mod sets;
mod show;
mod tables;
mod texts;
mod walks;

use model::Table;
use row::Row;
use std::io::Stdout;

// Makes a row's call, on the table and the bytes lent to it, and prints the answer.
fn call(to: Stdout, table: &mut Table, row: &Row, bytes: &[u8]) {
    let codes = table.head.codes;
    let numbers = row.numbers();
    match row.name {
        b"read" => packets::read(to, codes, bytes),
        b"write" => packets::write(to, codes, numbers),
        b"write_re" => packets::write_redundant(to, codes, numbers),
        b"count" => packets::count(to, codes, numbers),
        b"report" => packets::report(to, codes, numbers),
        b"text" => sets::read(to, bytes),
        b"set" => sets::set(to, table, numbers),
        b"lent" => sets::lent(to, codes, numbers),
        b"contains" => sets::contains(to, codes, numbers),
        b"walk" => walks::walk(to, bytes),
        b"step" => walks::step(to, numbers, bytes),
        b"open" => tables::open(to, table, numbers),
        b"open_red" => tables::open_redundant(to, table, numbers),
        b"receive" => tables::receive(to, table, bytes),
        b"fill" => tables::fill(to, table, numbers),
        b"put" => tables::put(table, numbers),
        b"table" => tables::table(to, table, numbers),
        b"look" => tables::look(to, *table, numbers),
        b"capture" => tables::capture(to, *table, bytes),
        b"redundan" => tables::redundant(to, *table, numbers, bytes),
        b"segment" => tables::segment(to, table, numbers),
        b"event" => tables::event(to, table, numbers),
        b"session" => texts::session(to, bytes),
        b"frame" => texts::frame(to, numbers, bytes),
        _ => {}
    }
}

// A row makes its call on the bytes that it gives after a colon, or on so many of those before as its first number says.
fn run(to: Stdout, table: &mut Table, bytes: &mut [u8; 64], line: &[u8]) {
    show::text(to, line);
    let row = Row::new(line);
    if row.name != b"#".as_slice() {
        let lent = match row.given {
            Some(text) => given::bytes_of(text, bytes),
            None => row.numbers().size(),
        };
        call(to, table, &row, bytes.get(..lent).unwrap_or(&[]));
    }
    show::text(to, b"\n");
}

fn main(rt: HostRuntime) {
    let mut text = [0; 65536];
    // A text that cannot be read to its end is read as far as it can be, and what cannot be written is left out.
    let read = match input::read_full(&mut rt.stdin(), &mut text) {
        Ok(bytes) => bytes,
        Err(broken) => broken.before,
    };
    let text = text.get(..read).unwrap_or(&[]);
    if text.is_empty() {
        return;
    }
    let mut table = tables::none();
    let mut bytes = [0; 64];
    for line in text
        .strip_suffix(b"\n")
        .unwrap_or(text)
        .split(|&b| b == b'\n')
    {
        run(rt.stdout(), &mut table, &mut bytes, line);
    }
}
