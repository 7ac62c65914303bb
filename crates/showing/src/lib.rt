// What one record of a shelf does with an event, and a shelf's device shown by its place, on plain values: what is known of a row once it has been
// looked at, and what it shows. The crate `rows` goes through the row.
#![tactic(auto)]

ghost use Rattle.std.specs.Prelude.{◌≡◌};
ghost use Rattle.arbiter.specs.Steps.{step, answer};
ghost use Rattle.shelf.specs.Shelf.{step_record};
ghost use Rattle.routing.specs.Deciding.{first_answer};
ghost use Rattle.showing.specs.Showing.{look_start, shown_here, look_of, shown_with, shown_of};

use arbiter::{Answer, Device, Raw};
use routing::{Seen, fault_answer, no_answer, reach_for, see_record, start};
use shelf::{Fault, Naming, Reach, Record};
use step::{answered, step_device};

// ---- what one record does

// The record makes the step. Where others did so before it, the first one answers.
#[tactic(auto, unfolding(shelf::specs::Shelf::step_record))]
pub fn visit(c: &mut Record, r: Raw, told: Option<Answer>) -> Answer
    ensures { (c.new ≡ step_record r c.old) × (result ≡ first_answer told (step c.old.device r).answer) }
{
    let s = step_device(c.device, r);
    c.device = s.device;
    told.unwrap_or(s.answer)
}

// ---- what a place shows

// What is known of a row after some records, its name a place, and what the device at that place shows once it has been met.
// Whether the answer counts `shown` tells; no flag stands beside it.
#[derive(Clone, Copy)]
pub struct Looked {
    pub seen: Seen,
    pub answer: Answer,
}

// A device as it stands: outcome 0 and no byte read, with the owner and the lines.
pub fn show_device(d: Device) -> Answer
    ensures { result ≡ answer 0 0 d }
{
    answered(0, 0, d)
}

#[tactic(auto, unfolding(crate::specs::Showing::look_start))]
pub fn look_start(place: u8) -> Looked
    ensures { result ≡ look_start place }
{
    Looked {
        seen: start(place),
        answer: no_answer(),
    }
}

fn shown_here(here: bool, d: Device, before: Answer) -> Answer
    ensures { result ≡ shown_here here d before }
{
    if here { show_device(d) } else { before }
}

// One more record. It is shown if its place is the one that is looked for.
#[tactic(auto, unfolding(crate::specs::Showing::look_of))]
pub fn look(s: Looked, c: Record) -> Looked
    ensures { result ≡ look_of s c }
{
    let before = s.seen;
    Looked {
        seen: see_record(before, c),
        answer: shown_here(before.count == before.name, c.device, s.answer),
    }
}

fn shown_with(w: Result<Reach, Fault>, a: Answer) -> Answer
    ensures { result ≡ shown_with w a }
{
    match w {
        Ok(_) => a,
        Err(f) => fault_answer(f),
    }
}

// What the whole row shows: a refusal of the shelf, or the device.
#[tactic(auto, unfolding(crate::specs::Showing::shown_of))]
pub fn shown(s: Looked) -> Answer
    ensures { result ≡ shown_of s }
{
    shown_with(reach_for(s.seen, Naming::APlace), s.answer)
}
