// The two readers on the same packets: every answer is compared, its refusal or, where a report is read, each of its fields.
use super::reader;
use super::sample::Sample;
use refusals::Refusal;
use std::io::Stdout;

const PACKETS: u32 = 500_000;

// The refusals that a reader has.
const REFUSALS: [Refusal; 8] = [
    Refusal::TooShort,
    Refusal::WrongVersion,
    Refusal::HeaderPastEnd,
    Refusal::BadPadding,
    Refusal::NotOneReport,
    Refusal::CodeNotInSet,
    Refusal::NoDuration,
    Refusal::Packed,
];

// Of how many packets packet::read read a report, how many it refused with each refusal, in the order above, and on how many the
// readers differed.
#[derive(Clone, Copy, Default)]
struct Tally {
    read: u32,
    refused: [u32; 8],
    differed: u32,
}

fn add_one(n: &mut u32) {
    *n = n.wrapping_add(1);
}

impl Tally {
    // One packet more: both readers read it.
    fn compare(&mut self, packet: &[u8]) {
        let answer = packet::read(codes::keys(), packet);
        if answer != reader::read(packet) {
            add_one(&mut self.differed);
        }
        match answer {
            Ok(_) => add_one(&mut self.read),
            Err(refusal) => {
                for (refused, which) in self.refused.iter_mut().zip(REFUSALS) {
                    if which == refusal {
                        add_one(refused);
                    }
                }
            }
        }
    }
}

// Compares on all packets, and prints a line for each answer, and how often the readers differed. A line that cannot be written is left
// out.
pub fn run(to: Stdout) {
    let mut tally = Tally::default();
    for n in 0..PACKETS {
        tally.compare(Sample::new(n).packet());
    }
    let _ = println!(to; "packets: {PACKETS}");
    let _ = println!(to; "read: {}", tally.read);
    for (which, refused) in REFUSALS.iter().zip(tally.refused) {
        let _ = println!(to; "refusal {}: {refused}", u8::from(*which));
    }
    let _ = println!(to; "differed: {}", tally.differed);
}
