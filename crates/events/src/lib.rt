// The events of a receiving table whose columns are lent: the event at a number, and the list.
#![tactic(auto)]

ghost use Rattle.std.specs.Prelude.{◌≡◌, ◌<◌, length};
ghost use Rattle.refusals.specs.Refusals.{told};
ghost use Rattle.model.specs.Answers.{no_event, listed_of};
ghost use Rattle.model.specs.Table.{table_of};
ghost use Rattle.model.specs.List.{event_at, list, list_answer};
ghost use Rattle.grouping.specs.Events.{events_from};
ghost use Rattle.events.specs.Numbers.{Finds, HeldBy};

use grouping::Held;
use model::Event;
use refusals::Refusal;
use valid::Columns;

// The segments that a table holds, or 16.
fn held<'a>(table: Columns<'a>) -> Result<Held<'a>, Refusal>
    ensures { HeldBy (table_of table.entry.head table.entry.keys.now table.entry.heard.now) result }
{
    if !table.is_valid() {
        return Err(Refusal::InvalidTable);
    }
    let Columns { head, keys, heard } = table;
    Ok(Held::of(keys, heard, head.count))
}

// The place where event k begins, counted from 0 among those that begin at the place `from` or later. Whoever goes on after it finds
// the later ones. It tests for no last place, since that event is still to come.
pub fn event_place(held: Held, from: usize, k: usize) -> usize
    requires { k < length (events_from held from) }
    ensures { Finds held.entry.keys.now held.entry.heard.now (length held.entry.keys.now) from k result }
{
    // A `for` would test for the last place too, and took up to 1.3 times as long.
    let mut left = k;
    let mut place = from;
    loop {
        if held.begins(place) {
            if left == 0 {
                return place;
            }
            left -= 1;
        }
        place += 1;
    }
}

// Tells the event at number k, counted from 1 by start, then code, or refuses with 16 or 13.
pub fn event_at(table: Columns, k: u32) -> Result<Event, Refusal>
    ensures { told no_event result
        ≡ event_at (table_of table.entry.head table.entry.keys.now table.entry.heard.now) k }
{
    let held = held(table)?;
    let number = k as usize;
    if number == 0 || held.count() < number {
        return Err(Refusal::NoSuchNumber);
    }
    Ok(held.event_from(event_place(held, 0, number - 1)))
}

// How many events there are, or 16, or 15 if there is room for fewer.
pub fn count_for(table: Columns, room: usize) -> Result<usize, Refusal>
    ensures { listed_of (told 0 result)
        ≡ list_answer (table_of table.entry.head table.entry.keys.now table.entry.heard.now) room }
{
    let count = held(table)?.count();
    if room < count {
        return Err(Refusal::ListTooSmall);
    }
    Ok(count)
}

// Writes the events into the first lent records and tells how many they are, or refuses with 16 or 15; the other records stay.
pub fn list(table: Columns, out: &mut [Event]) -> Result<usize, Refusal>
    ensures value { listed_of (told 0 result)
        ≡ (list (table_of table.entry.head table.entry.keys.now table.entry.heard.now) out.old).answer }
    ensures out_after { out.new
        ≡ (list (table_of table.entry.head table.entry.keys.now table.entry.heard.now) out.old).records }
{
    let n = count_for(table, out.len())?;
    let Columns { head, keys, heard } = table;
    let held = Held::of(keys, heard, head.count);
    let mut from = 0;
    for k in 0..n {
        let place = event_place(held, from, 0);
        out[k] = held.event_from(place);
        from = place + 1;
    }
    Ok(n)
}
