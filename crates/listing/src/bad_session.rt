// A session that cannot be used, and how this is said.
use printing::complain;
use session::BadLine;
use std::io::Error;

#[derive(Clone, Copy, Debug)]
pub enum BadSession {
    Unread(Error), // session.txt cannot be opened or read
    Line(BadLine),
    PayloadType, // it is above 127
}

impl BadSession {
    // Says on standard error why it is bad.
    fn explain<R: Eprint + AllocGlobal>(self, rt: &R) {
        let _ = match self {
            BadSession::Unread(why) => return complain(rt, "session.txt", why),
            BadSession::Line(line) => eprintln!(rt; "list-events: session.txt, {line}"),
            BadSession::PayloadType => {
                eprintln!(rt; "list-events: session.txt, line 1: the payload type is above 127")
            }
        };
    }

    // Says why it is bad, and lists `session=bad`.
    pub fn list<R: Print + Eprint + AllocGlobal>(self, rt: &R) {
        self.explain(rt);
        printing::bad_session(rt);
    }
}
