// A shelf's row lent to one event: a few thin functions over a slice of records. What they decide is decided by functions on plain values
// in the crate `routing`; they only look at the records and act on them.
#![tactic(auto)]

ghost use Rattle.std.specs.Prelude.{◌≡◌, length};
ghost use Rattle.shelf.specs.Shelf.{ShelfStepped, raw_of, tick_raw, reset_raw, shelf_show};
ghost use Rattle.shelf.specs.Runs.{fresh_at};
ghost use Rattle.routing.specs.Deciding.{seen_of, places};
ghost use Rattle.showing.specs.Showing.{looked_of};
ghost use Rattle.rows.specs.Sweeps.{carried_out};

use arbiter::{Answer, Kind, Raw};
use routing::{Seen, fault_answer, no_answer, plan_of, see_record, start};
use shelf::Record;
use showing::{Looked, look, look_start, shown, visit};
use step::fresh;

// The row looked at, record by record.
// Two lines, and so have the surveys of a row of bytes and of slots: one over any iterator would have its laws in every clause.
pub fn survey(row: &[Record], name: u8) -> Seen
    ensures { result ≡ seen_of name row.now }
{
    let mut s = start(name);
    for c in row {
        s = see_record(s, *c);
    }
    s
}

// These records make the step, one after the other. The first one answers.
fn carry_out(part: &mut [Record], r: Raw) -> Option<Answer>
    ensures { (part.new, result) ≡ carried_out r (places 0 (length part.old)) part.old }
{
    let mut told = None;
    for c in part.iter_mut() {
        told = Some(visit(c, r, told));
    }
    told
}

// One event on a shelf: the answer, and the row holds the devices as they then are. The name is the address or the place that it names.
pub fn route_event(row: &mut [Record], name: u8, r: Raw) -> Answer
    ensures { ShelfStepped row.old name r row.new result }
{
    match plan_of(survey(row, name), r.kind) {
        Ok(places) => carry_out(&mut row[places.start..places.end], r).unwrap_or(no_answer()),
        Err(f) => fault_answer(f),
    }
}

// The same with plain parameters: the event's four bytes.
pub fn step_shelf(row: &mut [Record], name: u8, kind: u8, x: u8, y: u8, z: u8) -> Answer
    ensures { ShelfStepped row.old name (raw_of kind x y z) row.new result }
{
    route_event(row, name, Raw { kind, x, y, z })
}

// `tick_all` and `reset_all` are two calls, since 01 orders both by name.
// A millisecond for every device. The answer is that of place 0.
pub fn tick_all(row: &mut [Record]) -> Answer
    ensures { ShelfStepped row.old 0 tick_raw row.new result }
{
    step_shelf(row, 0, 6, 0, 0, 0)
}

// A pin reset of every device. The answer is that of place 0.
pub fn reset_all(row: &mut [Record]) -> Answer
    ensures { ShelfStepped row.old 0 reset_raw row.new result }
{
    step_shelf(row, 0, 8, 0, 0, 0)
}

// ---- a device shown by its place

fn look_through(row: &[Record], place: u8) -> Looked
    ensures { result ≡ looked_of place row.now }
{
    let mut s = look_start(place);
    for c in row {
        s = look(s, *c);
    }
    s
}

// The device at a place as it stands: owner and lines, with outcome 0; or a refusal of the shelf.
pub fn show_place(row: &[Record], place: u8) -> Answer
    ensures { result ≡ shelf_show row.now place }
{
    shown(look_through(row, place))
}

// ---- a fresh record

// One place of a fresh row: a device of this kind after power-up, with its address. A row is built of these, place by place.
pub fn fresh_record(address: u8, kind: Kind) -> Record
    ensures { result ≡ fresh_at address kind }
{
    Record {
        address,
        device: fresh(kind),
    }
}
