// Structs that hold a refusal's number in place of a Result, for C and Rust: refusal 0 and the values, or the number and zeros.
#![tactic(auto)]

ghost use Rattle.std.specs.Prelude.{◌≡◌};
ghost use Rattle.refusals.specs.Refusals.{told};
ghost use Rattle.model.specs.Answers.{no_report, no_event, no_cursor, opened_of, walk_start_of, listed_of};
ghost use Rattle.model.specs.Codes.{empty_set};
ghost use Rattle.model.specs.Table.{no_table, one_type};
ghost use Rattle.results.specs.Results.{read_result, count_result, event_result, codes_result, text_result, lowest_result};

use model::{Codes, Cursor, Event, Head, Listed, Opened, Report, Table, WalkStart};
use refusals::Refusal;

// A report, or the number of the refusal and zeros.
#[repr(C)]
#[derive(Clone, Copy)]
pub struct ReadResult {
    pub report: Report,
    pub refusal: u8,
}

// How many reports a plan has, or the number of the refusal and 0.
#[repr(C)]
#[derive(Clone, Copy)]
pub struct CountResult {
    pub reports: u32,
    pub refusal: u8,
}

// An event, or the number of the refusal and zeros.
#[repr(C)]
#[derive(Clone, Copy)]
pub struct EventResult {
    pub event: Event,
    pub refusal: u8,
}

// A set, or the number of the refusal and the empty set.
#[repr(C)]
#[derive(Clone, Copy)]
pub struct CodesResult {
    pub codes: Codes,
    pub refusal: u8,
}

// How many bytes a text has, or the number of the refusal and 0.
#[repr(C)]
#[derive(Clone, Copy)]
pub struct TextResult {
    pub bytes: usize,
    pub refusal: u8,
}

// A code, or the number of the refusal and 0.
#[repr(C)]
#[derive(Clone, Copy)]
pub struct LowestResult {
    pub code: u32,
    pub refusal: u8,
}

// What is told of an answer: its values, zeros if it refuses, and the refusal's number, 0 if there is none.
fn told<T: Copy>(answer: Result<T, Refusal>, zeros: T) -> (T, u8)
    ensures values { result.0 ≡ (told zeros answer).values }
    ensures number { result.1 ≡ (told zeros answer).number }
{
    match answer {
        Ok(values) => (values, 0),
        Err(refusal) => (zeros, refusal as u8),
    }
}

fn no_report() -> Report
    ensures { result ≡ no_report }
{
    Report {
        marker: false,
        payload_type: 0,
        sequence: 0,
        timestamp: 0,
        ssrc: 0,
        code: 0,
        ended: false,
        volume: 0,
        duration: 0,
    }
}

fn no_event() -> Event
    ensures { result ≡ no_event }
{
    Event {
        code: 0,
        start: 0,
        length: 0,
        volume: 0,
        quietest: 0,
        began: false,
        ended: false,
    }
}

fn no_head() -> Head
    ensures { result ≡ one_type empty_set 0 0 0 }
{
    Head {
        payload_type: 0,
        both_types: 0,
        redundant_type: 0,
        ssrc: 0,
        origin: 0,
        codes: codes::none(),
        count: 0,
    }
}

// What reading a packet answered.
impl From<Result<Report, Refusal>> for ReadResult {
    ghost from_gives = { λ answer r. r ≡ read_result (told no_report answer) };

    fn from(answer: Result<Report, Refusal>) -> ReadResult {
        let (report, refusal) = told(answer, no_report());
        ReadResult { report, refusal }
    }
}

// What counting a plan's reports answered.
impl From<Result<u32, Refusal>> for CountResult {
    ghost from_gives = { λ answer r. r ≡ count_result (told 0 answer) };

    fn from(answer: Result<u32, Refusal>) -> CountResult {
        let (reports, refusal) = told(answer, 0);
        CountResult { reports, refusal }
    }
}

// What asking for one event answered.
impl From<Result<Event, Refusal>> for EventResult {
    ghost from_gives = { λ answer r. r ≡ event_result (told no_event answer) };

    fn from(answer: Result<Event, Refusal>) -> EventResult {
        let (event, refusal) = told(answer, no_event());
        EventResult { event, refusal }
    }
}

// What reading a text of codes answered.
impl From<Result<Codes, Refusal>> for CodesResult {
    ghost from_gives = { λ answer r. r ≡ codes_result (told empty_set answer) };

    fn from(answer: Result<Codes, Refusal>) -> CodesResult {
        let (codes, refusal) = told(answer, codes::none());
        CodesResult { codes, refusal }
    }
}

// What writing a set of codes answered.
impl From<Result<usize, Refusal>> for TextResult {
    ghost from_gives = { λ answer r. r ≡ text_result (told 0 answer) };

    fn from(answer: Result<usize, Refusal>) -> TextResult {
        let (bytes, refusal) = told(answer, 0);
        TextResult { bytes, refusal }
    }
}

// What asking for the lowest code answered.
impl From<Result<u32, Refusal>> for LowestResult {
    ghost from_gives = { λ answer r. r ≡ lowest_result (told 0 answer) };

    fn from(answer: Result<u32, Refusal>) -> LowestResult {
        let (code, refusal) = told(answer, 0);
        LowestResult { code, refusal }
    }
}

// What writing a packet answered, which is no more than the refusal's number.
pub fn written(answer: Result<(), Refusal>) -> u8
    ensures { result ≡ (told tt answer).number }
{
    let ((), refusal) = told(answer, ());
    refusal
}

// What opening a table answered.
pub fn opened(answer: Result<Table, Refusal>) -> Opened
    ensures { result ≡ opened_of (told no_table answer) }
{
    let (table, refusal) = told(answer, opening::empty(no_head()));
    Opened { table, refusal }
}

// What the start of a walk answered.
pub fn walk_started(answer: Result<Cursor, Refusal>) -> WalkStart
    ensures { result ≡ walk_start_of (told no_cursor answer) }
{
    let nowhere = Cursor {
        header: 0,
        body: 0,
        end: 0,
    };
    let (cursor, refusal) = told(answer, nowhere);
    WalkStart { cursor, refusal }
}

// How many events a list has, or why it cannot be written.
pub fn listed(answer: Result<usize, Refusal>) -> Listed
    ensures { result ≡ listed_of (told 0 answer) }
{
    let (events, refusal) = told(answer, 0);
    Listed { refusal, events }
}
