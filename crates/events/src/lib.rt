// Four bytes as an event, and what the parts of a step ask of one.
#![tactic(auto)]

ghost use Rattle.std.specs.Prelude.{◌≡◌, if◌then◌else◌};
ghost use Rattle.arbiter.specs.Events.{fitting, decode, decoded_number, raw_number, outcome_number};
ghost use Rattle.arbiter.specs.Order.{is_tick, clock_of};
ghost use Rattle.arbiter.specs.declared.Outcome.TheVariants.{Done, NotAcknowledged};

use arbiter::{Clock, Event, Outcome, Raw, Unread};
use fields::master_of;

// The event if its fields fit, else refusal 3.
fn fitting_if(ok: bool, e: Event) -> Result<Event, Unread>
    ensures { result ≡ fitting ok e }
{
    if ok { Ok(e) } else { Err(Unread::BadField) }
}

pub fn decode_raw(r: Raw) -> Result<Event, Unread>
    ensures value { result ≡ decode r }
    ensures result_value { decoded_number result ≡ raw_number r }
{
    let kind = r.kind;
    let m = master_of(r.x);
    let any = r.x < 2;
    match kind {
        0 => fitting_if(any & (r.z == 0), Event::Command(m, r.y)),
        1 => fitting_if(any & (r.z == 0), Event::Write(m, r.y)),
        2 => fitting_if(any & (r.y == 0) & (r.z == 0), Event::Read(m)),
        3 => fitting_if(any & (r.y == 0) & (r.z == 0), Event::Stop(m)),
        4 => fitting_if(r.z == 0, Event::Pair(r.x, r.y)),
        5 => fitting_if(
            any & (r.y < 2) & (r.z < 2),
            Event::Lines(r.x == 1, r.y == 1, r.z == 1),
        ),
        6 => fitting_if((r.x == 0) & (r.y == 0) & (r.z == 0), Event::Tick),
        7 => fitting_if(any & (r.y == 0) & (r.z == 0), Event::Pulse(r.x == 1)),
        8 => fitting_if((r.x == 0) & (r.y == 0) & (r.z == 0), Event::Reset),
        9 => fitting_if(any & (r.z == 0), Event::GeneralCall(m, r.y)),
        _ => Err(Unread::UnknownKind),
    }
}

// What the `let .. else` of a step answers, which 01 orders: the number of what is read, whole.
pub fn decoded_number(d: Result<Event, Unread>) -> u8
    ensures { result ≡ decoded_number d }
{
    match d {
        Ok(_) => 0,
        Err(why) => why as u8,
    }
}

// An answer has the number, not the outcome.
pub fn outcome_number(o: Outcome) -> u8
    ensures { result ≡ outcome_number o }
{
    o as u8
}

// The number of an event in sequence.
pub fn acknowledged_number(ok: bool) -> u8
    ensures { result ≡ outcome_number (if ok then Done else NotAcknowledged) }
{
    if ok {
        outcome_number(Outcome::Done)
    } else {
        outcome_number(Outcome::NotAcknowledged)
    }
}

pub fn is_tick(e: Event) -> bool
    ensures { result ≡ is_tick e }
{
    e == Event::Tick
}

pub fn clock_of(e: Event) -> Clock
    ensures { result ≡ clock_of e }
{
    match e {
        Event::Pulse(true) => Clock::ClockHigh,
        Event::Pulse(false) => Clock::ClockLow,
        _ => Clock::NoClock,
    }
}
