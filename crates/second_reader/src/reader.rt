// The second reader, written from document 01 in another way than crates/packet: it takes the packet byte by byte, never looks back
// or ahead, counts down what is left of each part, and judges when the bytes end.
use model::Report;
use refusals::Refusal;

// The parts, in the order of the packet. The fixed header is three words.
#[derive(Clone, Copy, PartialEq, Eq, PartialOrd, Ord)]
enum Part {
    First,
    Timestamp,
    Ssrc,
    Csrcs,
    Extension,
    Words,
    Rest,
}

// Where the walk stands: in which part, how many bytes of it are left, the last four bytes as one number, the words kept so far
// (`first` has everything up to the sequence number), and how many bytes of the rest came.
#[derive(Clone, Copy)]
struct Walk {
    part: Part,
    left: u32,
    window: u32,
    first: u32,
    timestamp: u32,
    ssrc: u32,
    payload: u32,
    rest: u32,
}

impl Walk {
    // Before the first byte.
    fn new() -> Self {
        Walk {
            part: Part::First,
            left: 4,
            window: 0,
            first: 0,
            timestamp: 0,
            ssrc: 0,
            payload: 0,
            rest: 0,
        }
    }

    // The start of a part of so many bytes; 0 for the rest, which ends where the packet does.
    fn enter(&mut self, part: Part, bytes: u32) {
        self.part = part;
        self.left = bytes;
    }

    // The words of the extension; where there are none, the rest begins.
    fn enter_words(&mut self) {
        match self.window & 0xFFFF {
            0 => self.enter(Part::Rest, 0),
            words => self.enter(Part::Words, words * 4),
        }
    }

    // The extension's own four bytes, or without X the rest.
    fn enter_extension(&mut self) {
        if self.first & 0x1000_0000 == 0 {
            self.enter(Part::Rest, 0);
        } else {
            self.enter(Part::Extension, 4);
        }
    }

    // The CSRC list, if it has any.
    fn enter_csrcs(&mut self) {
        match self.first >> 24 & 0xF {
            0 => self.enter_extension(),
            csrcs => self.enter(Part::Csrcs, csrcs * 4),
        }
    }

    // The last byte of a part came: what it says is kept, and the next part begins.
    fn pass(&mut self) {
        match self.part {
            Part::First => {
                self.first = self.window;
                self.enter(Part::Timestamp, 4);
            }
            Part::Timestamp => {
                self.timestamp = self.window;
                self.enter(Part::Ssrc, 4);
            }
            Part::Ssrc => {
                self.ssrc = self.window;
                self.enter_csrcs();
            }
            Part::Csrcs => self.enter_extension(),
            Part::Extension => self.enter_words(),
            Part::Words | Part::Rest => self.enter(Part::Rest, 0),
        }
    }

    // One byte more.
    fn step(&mut self, byte: u8) {
        self.window = self.window << 8 | u32::from(byte);
        if self.part == Part::Rest {
            self.rest = self.rest.wrapping_add(1);
            if self.rest == 4 {
                self.payload = self.window;
            }
        } else if self.left > 1 {
            self.left -= 1;
        } else {
            self.pass();
        }
    }

    // How many bytes the payload has: the rest without the padding, whose last byte, the packet's, counts it.
    fn payload_size(&self) -> Result<u32, Refusal> {
        if self.first & 0x2000_0000 == 0 {
            return Ok(self.rest);
        }
        match self.window & 0xFF {
            0 => Err(Refusal::BadPadding),
            padding => self.rest.checked_sub(padding).ok_or(Refusal::BadPadding),
        }
    }

    // What is read when all bytes came: the report, out of the words kept.
    fn judge(&self) -> Result<Report, Refusal> {
        if self.part < Part::Csrcs {
            return Err(Refusal::TooShort);
        }
        if self.first >> 30 != 2 {
            return Err(Refusal::WrongVersion);
        }
        if self.part < Part::Rest {
            return Err(Refusal::HeaderPastEnd);
        }
        match self.payload_size()? {
            4 => {}
            size if size != 0 && size % 4 == 0 => return Err(Refusal::Packed),
            _ => return Err(Refusal::NotOneReport),
        }
        let code = self.payload >> 24;
        let duration = self.payload & 0xFFFF;
        if code > 15 {
            return Err(Refusal::CodeNotInSet);
        }
        if duration == 0 {
            return Err(Refusal::NoDuration);
        }
        Ok(Report {
            marker: self.first & 0x80_0000 != 0,
            payload_type: self.first >> 16 & 0x7F,
            sequence: (self.first & 0xFFFF) as u16,
            timestamp: self.timestamp,
            ssrc: self.ssrc,
            code,
            ended: self.payload & 0x80_0000 != 0,
            volume: self.payload >> 16 & 0x3F,
            duration,
        })
    }
}

// Reads a packet.
pub fn read(packet: &[u8]) -> Result<Report, Refusal> {
    let mut walk = Walk::new();
    for byte in packet {
        walk.step(*byte);
    }
    walk.judge()
}
