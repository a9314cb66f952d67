// What C and Rust link: the library's calls, with the structs of `results` in place of Results. A slice crosses as a pointer and a length.
// Every function checks its own input; refusal 0 means that nothing was refused.
#![tactic(auto)]

ghost use Rattle.std.specs.Prelude.{◌≤◌, ◌≡◌};
ghost use Rattle.model.specs.Packet.{read, write};
ghost use Rattle.model.specs.Plan.{report_count, write_report};
ghost use Rattle.model.specs.Table.{valid, opened, opened_both, table_of, holding};
ghost use Rattle.model.specs.Receive.{receive};
ghost use Rattle.model.specs.Redundant.{receive_redundant};
ghost use Rattle.model.specs.WriteRedundant.{write_redundant};
ghost use Rattle.model.specs.Capture.{receive_capture};
ghost use Rattle.model.specs.List.{event_at, list};
ghost use Rattle.results.specs.Results.{read_result, count_result, event_result};

pub mod segments;
pub mod sets;
pub mod version;
pub mod walks;

use model::{
    BlocksReceived, Captured, Codes, Event, Head, Listed, OlderReport, Opened, Plan, Received,
    Report,
};
use results::{CountResult, EventResult, ReadResult};
use valid::Columns;

// Reads a packet: refusal 1, 2, 3, 4, 17 or 7, 8 if its code is not in the set, or 9, or the report that it carries.
#[unsafe(no_mangle)]
pub extern "C" fn twimbor_read(codes: Codes, s: &[u8]) -> ReadResult
    ensures { result ≡ read_result (read codes s.now) }
{
    ReadResult::from(packet::read(codes, s))
}

// Writes a report's 16 bytes at the start of the output, or answers 12, also for a code outside the set, or 14, and leaves the output
// as it is.
#[unsafe(no_mangle)]
pub extern "C" fn twimbor_write(codes: Codes, r: Report, out: &mut [u8]) -> u8
    ensures value { result ≡ (write codes r out.old).answer.number }
    ensures out_after { out.new ≡ (write codes r out.old).output }
{
    results::written(writer::write(codes, r, out))
}

// How many reports a plan has, or 12, also for a code outside the set.
#[unsafe(no_mangle)]
pub extern "C" fn twimbor_report_count(codes: Codes, p: Plan) -> CountResult
    ensures { result ≡ count_result (report_count codes p) }
{
    CountResult::from(plan::report_count(codes, p))
}

// Writes report k of a plan, counted from 1, at the start of the output, or answers 12, 13 or 14.
#[unsafe(no_mangle)]
pub extern "C" fn twimbor_write_report(codes: Codes, p: Plan, k: u32, out: &mut [u8]) -> u8
    ensures value { result ≡ (write_report codes p k out.old).answer.number }
    ensures out_after { out.new ≡ (write_report codes p k out.old).output }
{
    results::written(plan_report::write_report(codes, p, k, out))
}

// An empty table for the codes of a set, one payload type and SSRC, or 12 with a table of zeros if the set is empty or the payload
// type above 127.
#[unsafe(no_mangle)]
pub extern "C" fn twimbor_open_table(
    codes: Codes,
    payload_type: u32,
    ssrc: u32,
    origin: u32,
) -> Opened
    ensures { result ≡ opened codes payload_type ssrc origin }
{
    results::opened(opening::open(codes, payload_type, ssrc, origin))
}

// An empty table for the codes of a set, the event's payload type, that of redundant packets and one SSRC, or 12 with a table of zeros
// if the set is empty, one of the types above 127, or they are equal.
#[unsafe(no_mangle)]
pub extern "C" fn twimbor_open_redundant_table(
    codes: Codes,
    payload_type: u32,
    redundant_type: u32,
    ssrc: u32,
    origin: u32,
) -> Opened
    ensures { result ≡ opened_both codes payload_type redundant_type ssrc origin }
{
    results::opened(opening::open_redundant(codes, payload_type, redundant_type, ssrc, origin))
}

// Whether a table passes the tests of refusal 16.
#[unsafe(no_mangle)]
pub extern "C" fn twimbor_is_valid_columns<'a>(
    head: Head,
    keys: &'a [u64; 128],
    heard: &'a [u32; 128],
) -> bool
    ensures { result ≡ valid (table_of head keys.now heard.now) }
{
    Columns { head, keys, heard }.is_valid()
}

// Receives a packet: its report is taken into the table, or it is refused with 16, 1 to 11 or 17, and the table is as it was. The
// answer's count is the table's from then on.
#[unsafe(no_mangle)]
pub extern "C" fn twimbor_receive_columns(
    head: Head,
    keys: &mut [u64; 128],
    heard: &mut [u32; 128],
    packet: &[u8],
) -> Received
    ensures value { result ≡ (receive (table_of head keys.old heard.old) packet.now).answer }
    ensures heard_after { table_of (holding result.count head) keys.new heard.new
        ≡ (receive (table_of head keys.old heard.old) packet.now).table }
    ensures probes_bound { result.probes ≤ 8 }
{
    receive::receive(head, keys, heard, packet)
}

// Receives the packets of a buffer's whole frames one after another, tells how many were taken and how many refused, and how many
// bytes their frames use; or refuses them all with 16, and the table is as it was. The answer's count is the table's from then on.
#[unsafe(no_mangle)]
pub extern "C" fn twimbor_receive_capture_columns(
    head: Head,
    keys: &mut [u64; 128],
    heard: &mut [u32; 128],
    frames: &[u8],
) -> Captured
    ensures value { result ≡ (receive_capture (table_of head keys.old heard.old) frames.now).answer }
    ensures heard_after { table_of (holding result.count head) keys.new heard.new
        ≡ (receive_capture (table_of head keys.old heard.old) frames.now).table }
{
    capture::receive_capture(head, keys, heard, frames)
}

// Receives a packet that may be redundant: each block of the event's type, a plain packet being one, is taken or refused with 7 to 11 or
// 17 by itself, with its answer in an entry. Or the packet is refused whole, with 16, 1 to 6, 18, 19 or 15, and table and entries are as
// they were. The answer's count is the table's from then on.
#[unsafe(no_mangle)]
pub extern "C" fn twimbor_receive_redundant_columns(
    head: Head,
    keys: &mut [u64; 128],
    heard: &mut [u32; 128],
    packet: &[u8],
    entries: &mut [u32],
) -> BlocksReceived
    ensures value { result ≡ (receive_redundant (table_of head keys.old heard.old) packet.now entries.old).answer }
    ensures heard_after { table_of (holding result.count head) keys.new heard.new
        ≡ (receive_redundant (table_of head keys.old heard.old) packet.now entries.old).table }
    ensures entries_after { entries.new
        ≡ (receive_redundant (table_of head keys.old heard.old) packet.now entries.old).entries }
{
    redundant::receive_redundant(head, keys, heard, packet, entries)
}

// Writes a redundant packet of a report and of 0, 1 or 2 older ones, which stand before it in the order given, at the start of the
// output, or answers 12, also for a code outside the set, or 14, and leaves the output as it is.
#[unsafe(no_mangle)]
pub extern "C" fn twimbor_write_redundant(
    codes: Codes,
    r: Report,
    redundant_type: u32,
    count: u32,
    first: OlderReport,
    second: OlderReport,
    out: &mut [u8],
) -> u8
    ensures value { result ≡ (write_redundant codes r redundant_type count first second out.old).answer.number }
    ensures out_after { out.new ≡ (write_redundant codes r redundant_type count first second out.old).output }
{
    results::written(block_writer::write_redundant(
        codes,
        r,
        redundant_type,
        count,
        first,
        second,
        out,
    ))
}

// The event at number k, counted from 1 by start, then code, or 16 or 13.
#[unsafe(no_mangle)]
pub extern "C" fn twimbor_event_at_columns<'a>(
    head: Head,
    keys: &'a [u64; 128],
    heard: &'a [u32; 128],
    k: u32,
) -> EventResult
    ensures { result ≡ event_result (event_at (table_of head keys.now heard.now) k) }
{
    EventResult::from(events::event_at(Columns { head, keys, heard }, k))
}

// Writes the events into the first lent records and answers how many, or 16 or 15; the other records stay.
#[unsafe(no_mangle)]
pub extern "C" fn twimbor_list_columns<'a>(
    head: Head,
    keys: &'a [u64; 128],
    heard: &'a [u32; 128],
    out: &mut [Event],
) -> Listed
    ensures value { result ≡ (list (table_of head keys.now heard.now) out.old).answer }
    ensures out_after { out.new ≡ (list (table_of head keys.now heard.now) out.old).records }
{
    results::listed(events::list(Columns { head, keys, heard }, out))
}
