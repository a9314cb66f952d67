// A report taken into columns that are lent.
#![tactic(auto)]

ghost use Rattle.std.specs.Prelude.{◌≡◌, true, ◌≤◌, ◌<◌, length, get_or, set};
ghost use Rattle.refusals.specs.Refusals.{number_of};
ghost use Rattle.model.specs.Table.{table_of, valid};
ghost use Rattle.model.specs.Receive.{refused_with};
ghost use Rattle.table.specs.Columns.{inserted_at, Takes};

use model::{Head, Received};
use refusals::Refusal;
use searching::{Sought, seek};
use segment::merged;

// What a receiving call answers when it refuses before anything is looked up, with as many segments held as before.
pub fn refused(refusal: Refusal, count: usize) -> Received
    ensures { result ≡ refused_with (number_of refusal) count 0 }
{
    Received {
        refusal: refusal as u64,
        is_new: false,
        count,
        probes: 0,
    }
}

// Puts a number in at place i of the n held of a column: later ones move up by one place, the places above stay.
#[tactic(auto, using(crate::proofs::Shifts::put_in))]
fn insert<T: Copy>(column: &mut [T], n: usize, i: usize, x: T)
    requires i_le_n { i ≤ n }
    requires n_in_bounds { n < length column.old }
    ensures { column.new ≡ inserted_at i x n column.old }
{
    column.copy_within(i..n, i + 1);
    column[i] = x;
}

// Takes a report, given as a segment's two numbers, into a table that passes the tests: a known segment keeps it too, a new
// one is put in at its place, or refused with 11 if there is no room. It is no method of `Tested`: after any two numbers a table need not
// pass. It answers `Received`, since 11 has probes too.
#[tactic(auto, using(crate::proofs::Laws::taking))]
pub fn take(
    head: Head,
    keys: &mut [u64; 128],
    heard: &mut [u32; 128],
    key: u64,
    told: u32,
) -> Received
    requires { valid (table_of head keys.old heard.old) ≡ true }
    ensures { Takes head keys.old heard.old key told result keys.new heard.new }
{
    let count = head.count;
    let Sought { place, probes } = seek(&keys[..count], key);
    match place {
        Ok(i) => {
            heard[i] = merged(told, heard[i]);
            Received {
                refusal: 0,
                is_new: false,
                count,
                probes,
            }
        }
        Err(_) if 128 <= count => Received {
            refusal: Refusal::TableFull as u64,
            is_new: false,
            count,
            probes,
        },
        Err(i) => {
            insert(keys, count, i, key);
            insert(heard, count, i, told);
            Received {
                refusal: 0,
                is_new: true,
                count: count + 1,
                probes,
            }
        }
    }
}
