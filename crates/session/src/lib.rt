// The text of session.txt: three lines, each a name, a decimal number and a newline.
#![tactic(auto)]

ghost use Rattle.std.specs.Prelude.{◌≡◌, ◌≤◌, length};
ghost use Rattle.lines.specs.Lines.{line_at};
ghost use Rattle.session.specs.Session.{in_line, session_of};

mod bad_line;

pub use bad_line::BadLine;
pub use lines::Fault;
use lines::{Line, line_at};

// What a session's text gives: its three numbers.
#[derive(Clone, Copy, Debug, PartialEq, Eq)]
pub struct Session {
    pub payload_type: u32,
    pub ssrc: u32,
    pub origin: u32,
}

// Line k of a text, which begins at a place.
fn line(s: &[u8], k: u8, at: usize, name: &[u8]) -> Result<Line, BadLine>
    requires { at ≤ length s.now }
    ensures { result ≡ in_line k (line_at name.now s.now at) }
{
    line_at(s, at, name).map_err(|fault| BadLine { line: k, fault })
}

// The session, if its text is exactly the three lines `pt=`, `ssrc=` and `origin=`, each with a decimal number of at most 32 bits
// without leading zeros; else the first line that is wrong.
#[tactic(auto, using(crate::proofs::Laws::within))]
pub fn session_of(s: &[u8]) -> Result<Session, BadLine>
    ensures { result ≡ session_of s.now }
{
    let first = line(s, 1, 0, b"pt=")?;
    let second = line(s, 2, first.end, b"ssrc=")?;
    let third = line(s, 3, second.end, b"origin=")?;
    if third.end != s.len() {
        return Err(BadLine {
            line: 4,
            fault: Fault::MoreText,
        });
    }
    Ok(Session {
        payload_type: first.number,
        ssrc: second.number,
        origin: third.number,
    })
}
