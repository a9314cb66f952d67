// The text of session.txt, and the frames of a capture.
use crate::row::Numbers;
use crate::show;
use framing::frame_at;
use session::{Fault, session_of};
use std::io::Stdout;

fn word(fault: Fault) -> &'static [u8] {
    match fault {
        Fault::Name => b" name",
        Fault::NoNumber => b" no number",
        Fault::LeadingZero => b" leading zero",
        Fault::NoDigit => b" no digit",
        Fault::TooLarge => b" too large",
        Fault::NoNewline => b" no newline",
        Fault::MoreText => b" more text",
    }
}

pub fn session(to: Stdout, text: &[u8]) {
    show::text(to, b" =");
    match session_of(text) {
        Ok(session) => show::numbers(
            to,
            [
                u64::from(session.payload_type),
                u64::from(session.ssrc),
                u64::from(session.origin),
            ],
        ),
        Err(bad) => {
            show::text(to, b" bad");
            show::numbers(to, [u64::from(bad.line)]);
            show::text(to, word(bad.fault));
        }
    }
}

// The frame at a place.
pub fn frame(to: Stdout, mut numbers: Numbers, frames: &[u8]) {
    let at = numbers.size();
    if frames.len() < at {
        return;
    }
    show::text(to, b" =");
    match frame_at(frames, at) {
        Some(frame) => show::numbers(to, [frame.start as u64, frame.end as u64]),
        None => show::text(to, b" none"),
    }
}
