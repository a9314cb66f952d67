// The listing program: a session and a capture are read, and the capture's events printed. What cannot be read or written is said on
// standard error, where nothing else is said; a capture that cannot be read to its end is not listed.
#![tactic(auto)]

ghost use Rattle.std.specs.Prelude.{◌≡◌, ◌≤◌, true, length, IfOk};
ghost use Rattle.model.specs.Table.{valid};

mod bad_session;

use bad_session::BadSession;
use model::Table;
use printing::complain;
use receive::Tested;
use session::{Session, session_of};
use std::io::Read;
use std::os::fd::AsRawFd;
use std::{fs, io};
use valid::Columns;

// Reads a file to its end, or as far as there is room.
fn read<F: Read + Drop>(file: io::Result<F>, text: &mut [u8]) -> io::Result<usize>
    ensures { IfOk result (λ bytes. bytes ≤ length text.new) }
{
    let mut file = file?;
    Ok(input::read_full(&mut file, text)?)
}

// The table that is opened for a session; numbers that open refuses are bad.
#[tactic(auto, using(crate::proofs::Laws::opened_valid))]
fn opened<S: Read + Drop>(session: io::Result<S>) -> Result<Table, BadSession>
    ensures { IfOk result (λ t. valid t ≡ true) }
{
    let mut text = [0; 64];
    let bytes = read(session, &mut text).map_err(BadSession::Unread)?;
    let Session {
        payload_type,
        ssrc,
        origin,
    } = session_of(&text[..bytes]).map_err(BadSession::Line)?;
    opening::open(codes::keys(), payload_type, ssrc, origin).map_err(|_| BadSession::PayloadType)
}

// Lists what an opened table holds after a capture.
fn list_capture<R: Print + Eprint + AllocGlobal, C: Read + Drop>(
    rt: &R,
    t: Table,
    capture: io::Result<C>,
) -> io::Result<()>
    requires { valid t ≡ true }
{
    let mut frames = capture?;
    let mut keys = t.keys;
    let mut heard = t.heard;
    let mut table = Tested {
        head: t.head,
        keys: &mut keys,
        heard: &mut heard,
    };
    let so_far = pieces::received(&mut table, &mut frames)?;
    let Tested { head, keys, heard } = table;
    printing::listing(rt, so_far, Columns { head, keys, heard });
    Ok(())
}

// Lists the events of a capture, both given as they were opened; a session that is bad in any way, or no file, is `session=bad`.
pub fn list_events<R: Print + Eprint + AllocGlobal, S: Read + Drop, C: Read + Drop>(
    rt: &R,
    session: io::Result<S>,
    capture: io::Result<C>,
) {
    match opened(session) {
        Ok(t) => {
            if let Err(why) = list_capture(rt, t, capture) {
                complain(rt, "the capture", why);
            }
        }
        Err(bad) => bad.list(rt),
    }
}

// Lists the capture on standard input, with session.txt of the working directory.
pub fn run(rt: &HostRuntime) {
    let session = fs::open(rt, "session.txt");
    if let Ok(file) = &session {
        // The lowest number is free only if standard input is closed.
        if file.as_raw_fd() == rt.stdin().as_raw_fd() {
            let _ = eprintln!(rt; "list-events: standard input is closed");
            return;
        }
    }
    list_events(rt, session, Ok(rt.stdin()));
}
