// The tests of refusal 16. Nothing is decided on the way through a column, so that the compiler can test several places at a
// time: the bits of all numbers are gathered, and since 2^31 is a power of two, one look at the bits that some key has tells
// whether an offset is too large. They tell too whether all codes are among the 16 keys; if the set has these, no code
// is looked at by itself. Of two numbers that are compared the difference is gathered: its highest bit tells which is larger, and is
// among the bits that all differences have if all are so.
#![tactic(auto)]

ghost use Rattle.std.specs.Prelude.{◌≡◌};
ghost use Rattle.model.specs.Table.{valid_types, valid, table_of};
ghost use Rattle.valid.specs.Passes.{CodesPass, Weighs, HeardPass, Tells, Ranks, Highest};

use codes::contains_byte;
use model::{Codes, Head};

// Whether the codes of the keys are in the set.
#[tactic(auto, using(crate::proofs::Laws::testing))]
fn each_in(codes: Codes, keys: &[u64]) -> bool
    ensures { Tells result (CodesPass codes keys.now) }
{
    // `all` made receiving with 64 held a tenth slower.
    for &key in keys {
        if !contains_byte(codes, (key % 256) as u8) {
            return false;
        }
    }
    true
}

// What no code of the keys is above, by their gathered bits; none if the keys do not rise or an offset is 2^31 or more. A key that rises,
// taken off the one before it, leaves bit 63 set: both are far below that bit, or the gathered bits tell.
#[tactic(auto, using(crate::proofs::Laws::testing))]
fn highest_of(keys: &[u64]) -> Option<u8>
    ensures { Ranks keys.now result }
{
    if keys.is_empty() {
        return Some(0);
    }
    let mut bits = keys[0];
    let mut rises = 0x8000_0000_0000_0000u64;
    // An index: `windows` made receiving a tenth slower.
    for i in 1..keys.len() {
        bits |= keys[i];
        rises &= keys[i - 1].wrapping_sub(keys[i]);
    }
    if 0x80_0000_0000 <= bits || rises < 0x8000_0000_0000_0000 {
        return None;
    }
    Some((bits % 256) as u8)
}

// A number whose bits 31 and 16 tell whether there is a duration and the quietest is not below the loudest: the loudest, where the quietest
// stands, less the quietest and the duration. A duration takes from bit 16 on, and so from the quietest too.
#[tactic(auto, using(crate::proofs::Laws::testing))]
fn weighed(told: u32) -> u32
    ensures { Weighs told result }
{
    let loudest = told / 0x100_0000 * 0x4_0000;
    let quietest = told / 0x4_0000 % 64 * 0x4_0000;
    loudest.wrapping_sub(quietest + told % 0x1_0000)
}

// Whether each number heard has a duration, and a quietest that is not below the loudest. It has 6 bits, so neither is above 63.
#[tactic(auto, using(crate::proofs::Laws::testing))]
fn heard_pass(heard: &[u32]) -> bool
    ensures { Tells result (HeardPass heard.now) }
{
    let mut shown = 0x8001_0000u32;
    for &told in heard {
        shown &= weighed(told);
    }
    shown == 0x8001_0000
}

// Whether a table's payload types pass: the event's is up to 127, and so is that of redundant packets, if the table was opened for
// both, and they differ.
#[tactic(auto, using(crate::proofs::Laws::testing))]
fn types_pass(head: Head) -> bool
    ensures { result ≡ valid_types head }
{
    head.payload_type <= 127
        && (head.both_types == 0
            || head.redundant_type <= 127 && head.payload_type != head.redundant_type)
}

// What no code held is above, or none if a table fails another test than that of its codes: at most 128 segments held,
// the payload types, every segment within its ranges and after the one before it, by offset, then code.
#[tactic(auto, using(crate::proofs::Laws::testing))]
pub fn highest_code<'a>(head: Head, keys: &'a [u64; 128], heard: &'a [u32; 128]) -> Option<u8>
    ensures { Highest (table_of head keys.now heard.now) result }
{
    let count = head.count;
    if 128 < count || !types_pass(head) {
        return None;
    }
    let highest = highest_of(&keys[..count])?;
    if !heard_pass(&heard[..count]) {
        return None;
    }
    Some(highest)
}

// Whether a table passes the tests. The receiving calls, whose columns are lent to be written, ask here: a struct would cost them a
// copy of the head.
#[tactic(auto, using(crate::proofs::Laws::testing))]
pub fn is_valid<'a>(head: Head, keys: &'a [u64; 128], heard: &'a [u32; 128]) -> bool
    ensures { result ≡ valid (table_of head keys.now heard.now) }
{
    let Some(highest) = highest_code(head, keys, heard) else {
        return false;
    };
    if highest < 16 && head.codes.from_0 % 65536 == 65535 {
        return true;
    }
    each_in(head.codes, &keys[..head.count])
}

// A table whose columns are lent to be read.
#[derive(Clone, Copy)]
pub struct Columns<'a> {
    pub head: Head,
    pub keys: &'a [u64; 128],
    pub heard: &'a [u32; 128],
}

impl Columns<'_> {
    // Whether it passes the tests.
    #[inline(always)]
    pub fn is_valid(self) -> bool
        ensures { result ≡ valid (table_of self.entry.head self.entry.keys.now self.entry.heard.now) }
    {
        is_valid(self.head, self.keys, self.heard)
    }
}
