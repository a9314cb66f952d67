// The text of one item of a set of event codes, put at a place: a code, or a range of them.
#![tactic(auto)]

ghost use Rattle.std.specs.Prelude.{◌+◌, ◌≤◌, length};
ghost use Rattle.item_writer.specs.Items.{Puts, number_after, range_text};

use code_ranges::Range;
use decimal::digit;

// Puts a text at a place; answers the place after it. The text's length is known where it is called, so that no copying has to be called.
#[tactic(auto, using(crate::proofs::Laws::writing_items))]
fn put<const N: usize>(text: [u8; N], at: usize, out: &mut [u8]) -> usize
    requires { at + length text ≤ length out.old }
    ensures { Puts text.entry at out.old result out.new }
{
    out[at..at + N].copy_from_slice(&text);
    at + N
}

// Puts a separator and a number at a place; answers the place after them.
fn put_number(separator: u8, n: u32, at: usize, out: &mut [u8]) -> usize
    requires n_bound { n ≤ 255 }
    requires n_in_bounds { at + length (number_after separator n) ≤ length out.old }
    ensures { Puts (number_after separator n) at out.old result out.new }
{
    if n < 10 {
        put([separator, digit(n)], at, out)
    } else if n < 100 {
        put([separator, digit(n / 10), digit(n % 10)], at, out)
    } else {
        let hundreds = digit(n / 100);
        put(
            [separator, hundreds, digit(n / 10 % 10), digit(n % 10)],
            at,
            out,
        )
    }
}

// Puts a range with its comma before it at a place; answers the place after it.
#[tactic(auto, using(crate::proofs::Laws::writing_items))]
pub fn put_range(range: Range, at: usize, out: &mut [u8]) -> usize
    requires { at + length (range_text range.first range.last) ≤ length out.old }
    ensures { Puts (range_text range.first range.last) at out.old result out.new }
{
    let middle = put_number(b',', range.first, at, out);
    if range.first == range.last {
        return middle;
    }
    put_number(b'-', range.last, middle, out)
}
