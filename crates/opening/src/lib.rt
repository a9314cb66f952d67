// Opening a receiving table, for one payload type or for two.
#![tactic(auto)]

ghost use Rattle.std.specs.Prelude.{◌≡◌};
ghost use Rattle.refusals.specs.Refusals.{told};
ghost use Rattle.model.specs.Answers.{opened_of};
ghost use Rattle.model.specs.Table.{no_table, one_type, empty_table, opened, opened_both};

use codes::is_empty;
use model::{Codes, Head, Table};
use refusals::Refusal;

// The empty table of a head, with zeros in all places.
pub fn empty(head: Head) -> Table
    ensures { result ≡ empty_table head }
{
    Table {
        head,
        keys: [0; 128],
        heard: [0; 128],
    }
}

// The head of a table that holds nothing, for one payload type.
fn one_type(codes: Codes, payload_type: u8, ssrc: u32, origin: u32) -> Head
    ensures { result ≡ one_type codes payload_type ssrc origin }
{
    Head {
        payload_type,
        both_types: 0,
        redundant_type: 0,
        ssrc,
        origin,
        codes,
        count: 0,
    }
}

// An empty table for the codes of a set, one payload type and SSRC, or refusal 12 if the set is empty or the payload type above 127.
pub fn open(codes: Codes, payload_type: u32, ssrc: u32, origin: u32) -> Result<Table, Refusal>
    ensures { opened_of (told no_table result) ≡ opened codes payload_type ssrc origin }
{
    if is_empty(codes) || 127 < payload_type {
        return Err(Refusal::OutOfRange);
    }
    Ok(empty(one_type(codes, payload_type as u8, ssrc, origin)))
}

// An empty table for the codes of a set, the event's payload type, the payload type of redundant packets and one SSRC, or refusal 12
// if the set is empty, one of the types above 127, or they are equal.
pub fn open_redundant(
    codes: Codes,
    payload_type: u32,
    redundant_type: u32,
    ssrc: u32,
    origin: u32,
) -> Result<Table, Refusal>
    ensures { opened_of (told no_table result) ≡ opened_both codes payload_type redundant_type ssrc origin }
{
    if is_empty(codes)
        || 127 < payload_type
        || 127 < redundant_type
        || payload_type == redundant_type
    {
        return Err(Refusal::OutOfRange);
    }
    Ok(empty(Head {
        both_types: 1,
        redundant_type: redundant_type as u8,
        ..one_type(codes, payload_type as u8, ssrc, origin)
    }))
}
