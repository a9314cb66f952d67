// What the listing program prints: it is put together in one text, and written at once.
#![tactic(auto)]

ghost use Rattle.std.specs.Prelude.{◌≤◌, length};
ghost use Rattle.printing.specs.Output.{HasRoom, Puts};

mod text;

use itoa::Buffer;
use model::Event;
use pieces::{Counts, SoFar};
use std::io::Error;
use text::Text;
use valid::Columns;

const NO_EVENT: Event = Event {
    code: 0,
    start: 0,
    length: 0,
    volume: 0,
    quietest: 0,
    began: false,
    ended: false,
};

// The system's words for an error, which stand before its number.
fn words(said: &str) -> &str {
    match said.split_once(" (os error ") {
        Some((before, _)) => before,
        None => said,
    }
}

// Says on standard error what could not be read or written, and why.
pub fn complain<R: Eprint + AllocGlobal>(rt: &R, what: &str, why: Error) {
    let _ = match why.to_string(rt.alloc()) {
        Ok(said) => rt.eprintln(format_args!("list-events: {what}: {}", words(said.as_str()))),
        Err(_) => rt.eprintln(format_args!("list-events: {what}: {why}")),
    };
}

// Writes a text to standard output, or says on standard error why it cannot be written.
fn print<R: Print + Eprint + AllocGlobal>(rt: &R, text: &[u8]) {
    if let Err(e) = rt.write_all(text) {
        complain(rt, "standard output", e);
    }
}

pub fn bad_session<R: Print + Eprint + AllocGlobal>(rt: &R) {
    print(rt, b"session=bad\n");
}

// One line: a name and a number, which has at most 20 digits.
fn line(text: &mut Text, name: &str, n: u64)
    requires room { HasRoom 32 text.old }
    requires name_len_bound { length name.now ≤ 9 }
    ensures { Puts 32 text.old text.new }
{
    let mut digits = Buffer::new();
    text.push(name);
    text.push(digits.format(n));
    text.push("\n");
}

fn event(text: &mut Text, v: Event)
    requires { HasRoom 224 text.old }
    ensures { Puts 224 text.old text.new }
{
    line(text, "start=", u64::from(v.start));
    line(text, "key=", u64::from(v.code));
    line(text, "units=", u64::from(v.length));
    line(text, "volume=", u64::from(v.volume));
    line(text, "quietest=", u64::from(v.quietest));
    line(text, "began=", u64::from(v.began));
    line(text, "ended=", u64::from(v.ended));
}

// The events one by one, and how many they are. The text has room for 128, and a table has no more.
#[tactic(auto, using(crate::proofs::Laws::printing_events))]
fn events(text: &mut Text, table: Columns) -> usize
    requires { HasRoom 28672 text.old }
    ensures { Puts 28672 text.old text.new }
{
    let mut list = [NO_EVENT; 128];
    let Ok(n) = events::list(table, &mut list) else {
        return 0;
    };
    for &v in &list[..n] {
        event(text, v);
    }
    n
}

fn counted(text: &mut Text, c: Counts)
    requires { HasRoom 96 text.old }
    ensures { Puts 96 text.old text.new }
{
    line(text, "taken=", c.taken);
    line(text, "refused=", c.refused);
    line(text, "packed=", c.packed);
}

// The whole list.
fn list(text: &mut Text, c: SoFar, table: Columns)
    requires { HasRoom 28832 text.old }
    ensures { Puts 28832 text.old text.new }
{
    let n = events(text, table);
    line(text, "events=", n as u64);
    counted(text, c.counts);
    line(text, "cut=", u64::from(0 < c.left));
}

pub fn listing<R: Print + Eprint + AllocGlobal>(rt: &R, c: SoFar, table: Columns) {
    let mut text = Text::new();
    list(&mut text, c, table);
    print(rt, text.written());
}
