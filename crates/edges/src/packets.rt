// Packets read and written, and the sender's plan.
use crate::row::Numbers;
use crate::show;
use model::{Codes, OlderReport, Plan, Report};
use refusals::Refusal;
use std::io::Stdout;

// M, payload type, sequence number, timestamp, SSRC, code, E, volume, duration.
fn report_of(numbers: &mut Numbers) -> Report {
    Report {
        marker: numbers.flag(),
        payload_type: numbers.number(),
        sequence: numbers.short(),
        timestamp: numbers.number(),
        ssrc: numbers.number(),
        code: numbers.number(),
        ended: numbers.flag(),
        volume: numbers.number(),
        duration: numbers.number(),
    }
}

// Timestamp, code, E, volume, duration.
fn older_of(numbers: &mut Numbers) -> OlderReport {
    OlderReport {
        timestamp: numbers.number(),
        code: numbers.number(),
        ended: numbers.flag(),
        volume: numbers.number(),
        duration: numbers.number(),
    }
}

// Payload type, SSRC, first sequence number, start, code, volume, length, period, segment size.
fn plan_of(numbers: &mut Numbers) -> Plan {
    Plan {
        payload_type: numbers.number(),
        ssrc: numbers.number(),
        sequence: numbers.short(),
        start: numbers.number(),
        code: numbers.number(),
        volume: numbers.number(),
        length: numbers.number(),
        period: numbers.number(),
        segment_size: numbers.number(),
    }
}

pub fn read(to: Stdout, codes: Codes, packet: &[u8]) {
    let read = packet::read(codes, packet).map(|report| [
        u64::from(report.marker),
        u64::from(report.payload_type),
        u64::from(report.sequence),
        u64::from(report.timestamp),
        u64::from(report.ssrc),
        u64::from(report.code),
        u64::from(report.ended),
        u64::from(report.volume),
        u64::from(report.duration),
    ]);
    show::answered(to, read);
}

// How many reports a plan has.
pub fn count(to: Stdout, codes: Codes, mut numbers: Numbers) {
    let counted = plan::report_count(codes, plan_of(&mut numbers));
    show::answered(to, counted.map(|reports| [u64::from(reports)]));
}

// What a writing call answered, and all of the output.
fn written(to: Stdout, answer: Result<(), Refusal>, out: &[u8]) {
    match answer {
        Ok(()) => show::answer(to, 0),
        Err(refusal) => show::refused(to, refusal),
    }
    show::bytes(to, out)
}

// How many bytes of 17 are lent, and a report.
pub fn write(to: Stdout, codes: Codes, mut numbers: Numbers) {
    let mut out = [0xEE; 17];
    let room = numbers.size();
    if 17 < room {
        return;
    }
    let room = &mut out[..room];
    let answer = writer::write(codes, report_of(&mut numbers), room);
    written(to, answer, &out)
}

// How many bytes of 17 are lent, a plan, and the report's number.
pub fn report(to: Stdout, codes: Codes, mut numbers: Numbers) {
    let mut out = [0xEE; 17];
    let room = numbers.size();
    if 17 < room {
        return;
    }
    let room = &mut out[..room];
    let plan = plan_of(&mut numbers);
    let answer = plan_report::write_report(codes, plan, numbers.number(), room);
    written(to, answer, &out)
}

// How many bytes of 34 are lent, a report, the redundant payload type, how many older reports, and two of them.
pub fn write_redundant(to: Stdout, codes: Codes, mut numbers: Numbers) {
    let mut out = [0xEE; 34];
    let room = numbers.size();
    if 34 < room {
        return;
    }
    let room = &mut out[..room];
    let answer = block_writer::write_redundant(
        codes,
        report_of(&mut numbers),
        numbers.number(),
        numbers.number(),
        older_of(&mut numbers),
        older_of(&mut numbers),
        room,
    );
    written(to, answer, &out)
}
