// A buffer that is filled from a reader, behind what stands in it and is still wanted.
#![tactic(auto)]

ghost use Rattle.std.specs.Prelude.{◌≡◌, ◌≤◌, ◌<◌, length, IfOk, MatchResult};
ghost use Rattle.input.specs.Buffer.{Refills, Keeps};

use std::io;
use std::io::{Error, ErrorKind, Read};

// A read that failed, what had come before it, and why it failed.
#[derive(Clone, Copy, Debug)]
pub struct Broken<T> {
    pub before: T,
    pub why: Error,
}

impl<T: Drop> From<Broken<T>> for Error {
    ghost from_gives = { λ broken why. why ≡ broken.why };

    fn from(broken: Broken<T>) -> Error {
        broken.why
    }
}

// Reads once; a read that a signal interrupts is made again.
fn read_some<R: Read>(input: &mut R, room: &mut [u8]) -> io::Result<usize>
    ensures { IfOk result (λ bytes. bytes ≤ length room.new) }
{
    for _ in 0..u64::MAX {
        match input.read(room) {
            Err(e) if e.kind() == ErrorKind::Interrupted => {}
            done => return done,
        }
    }
    Err(Error::from(ErrorKind::Interrupted))
}

// Reads once into the buffer from a place on, and answers how many bytes came, none at the end of the input.
pub fn refill<R: Read>(input: &mut R, b: &mut [u8], from: usize) -> io::Result<usize>
    requires { from < length b.old }
    ensures { MatchResult result (λ bytes. Refills from b.old bytes b.new) (λ _. Refills from b.old 0 b.new) }
{
    read_some(input, &mut b[from..])
}

// Reads until the buffer is full, the input ends or a read fails, and answers how many bytes came.
pub fn read_full<R: Read>(input: &mut R, b: &mut [u8]) -> Result<usize, Broken<usize>>
    ensures { MatchResult result (λ bytes. bytes ≤ length b.new) (λ broken. broken.before ≤ length b.new) }
{
    // No `for`: a step is what a read gave.
    let mut before = 0;
    while before < b.len() {
        match refill(input, b, before) {
            Ok(0) => break,
            Ok(bytes) => before += bytes,
            Err(why) => return Err(Broken { before, why }),
        }
    }
    Ok(before)
}

// Moves the bytes from place `at` up to n to the front, and answers how many they are. A long frame may come in many small pieces: then
// none was used, and none is moved.
#[tactic(auto, using(crate::proofs::Moves::moves))]
pub fn keep(b: &mut [u8], at: usize, n: usize) -> usize
    requires at_le_n { at ≤ n }
    requires n_in_bounds { n ≤ length b.old }
    ensures { Keeps at n b.old result b.new }
{
    if at > 0 {
        b.copy_within(at..n, 0);
    }
    n - at
}
