// A line of session.txt that is wrong, and how this is said.
use lines::Fault;
use std::fmt;

// Which line is wrong, counted from 1, and why.
#[derive(Clone, Copy, Debug, PartialEq, Eq)]
pub struct BadLine {
    pub line: u8,
    pub fault: Fault,
}

impl BadLine {
    fn words(&self) -> &'static str {
        match self.fault {
            Fault::Name => match self.line {
                1 => "it does not begin with pt=",
                2 => "it does not begin with ssrc=",
                _ => "it does not begin with origin=",
            },
            Fault::NoNumber => "no number stands after the =",
            Fault::LeadingZero => "the number has a leading zero",
            Fault::NoDigit => {
                "something else than digits stands after the = (a space, a carriage return?)"
            }
            Fault::TooLarge => "the number is above 4294967295",
            Fault::NoNewline => "it does not end with a newline",
            Fault::MoreText => "there may be three lines, and nothing after them",
        }
    }
}

impl fmt::Display for BadLine {
    fn fmt<W: fmt::Write>(&self, f: &mut fmt::Formatter<W>) -> fmt::Result {
        write!(f, "line {}: {}", self.line, self.words())
    }
}
