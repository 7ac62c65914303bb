// One trace counted: the states after its TICKs are looked at, and the counts handed from one to the next. Quiet TICKs in a row, which change
// nothing but counts, are taken together, and events in a row of which none is a TICK go through the loop over events.
ghost use Rattle.std.specs.Prelude.{◌+◌, ◌-◌, ◌*◌, ◌<◌, ◌≤◌, ◌≡◌, length, if◌then◌else◌};
ghost use Rattle.arbiter.specs.Words.{worth};
ghost use Rattle.arbiter.specs.Traces.{event_bytes, most_events, raws_in, event_count};
ghost use Rattle.format.specs.Places.{event_at};
ghost use Rattle.light.specs.Light.{Settled};
ghost use Rattle.quiet.specs.Quiet.{quiet_ticks};
ghost use Rattle.share.specs.States.{states_from};
ghost use Rattle.traces.specs.Ticks.{is_tick_raw};
ghost use Rattle.share.specs.Walk.{seen_of, waited_on, noted, no_tally, tally_from, Within, point_with, one_taken, quiet_taken, AllTicks, AllSuch, others_taken, Onward, counted_in};

use crate::{Point, Seen, Tally};
use arbiter::{Device, Master, Raw};
use fields::{closed_for, owns_turn};
use format::{EVENT_BYTES, MOST_EVENTS, event_at};
use quiet::{after_ticks, counts_left};
use step::step_device;
use traces::run_settled;
use traces::ticks::is_tick;

// ---- one state

fn see(d: Device) -> Seen
    ensures { result ≡ seen_of d }
{
    let owns0 = owns_turn(Master::Zero, d.arb.turn);
    let owns1 = owns_turn(Master::One, d.arb.turn);
    Seen {
        owns0,
        owns1,
        free: !owns0 & !owns1,
        closed0: closed_for(Master::Zero, d.arb.switch),
        closed1: closed_for(Master::One, d.arb.switch),
        waits0: d.side0.contr.lockreq & !owns0,
        waits1: d.side1.contr.lockreq & !owns1,
    }
}

// ---- the counts of one trace

#[tactic(auto, unfolding(crate::specs::Walk::no_tally))]
fn empty_tally() -> Tally
    ensures { result ≡ no_tally }
{
    Tally::default()
}

// A count that rises by j, if it counts.
fn raised(j: u16, counts: bool, n: u16) -> u16
    requires { n + j ≤ most_events }
    ensures { result ≡ n + worth j counts }
{
    if counts { n + j } else { n }
}

fn waited_on(j: u16, waiting: bool, n: u16) -> u16
    requires { n + j ≤ most_events }
    ensures { result ≡ waited_on j waiting n }
{
    if waiting { n + j } else { 0 }
}

// j states more, of which the same is seen.
#[tactic(auto, unfolding(crate::specs::Walk::noted, crate::specs::Numbers::larger))]
fn note(j: u16, s: Seen, t: Tally) -> Tally
    requires { (j ≤ most_events) × Within (most_events - j) t }
    ensures { result ≡ noted j s t }
{
    let run0 = waited_on(j, s.waits0, t.run0);
    let run1 = waited_on(j, s.waits1, t.run1);
    Tally {
        ticks: raised(j, true, t.ticks),
        owned0: raised(j, s.owns0, t.owned0),
        owned1: raised(j, s.owns1, t.owned1),
        unowned: raised(j, s.free, t.unowned),
        connected0: raised(j, s.closed0, t.connected0),
        connected1: raised(j, s.closed1, t.connected1),
        waited0: raised(j, s.waits0, t.waited0),
        waited1: raised(j, s.waits1, t.waited1),
        run0,
        run1,
        longest0: t.longest0.max(run0),
        longest1: t.longest1.max(run1),
    }
}

// The state after one event is noted, if the event is a TICK.
fn note_after(r: Raw, d: Device, t: Tally) -> Tally
    requires { Within (most_events - 1) t }
    ensures { result ≡ (if is_tick_raw r then noted 1 (seen_of d) t else t) }
{
    if is_tick(r) { note(1, see(d), t) } else { t }
}

// ---- through the events

fn point_with(device: Device, tally: Tally, at: usize) -> Point
    ensures { result ≡ point_with device tally at }
{
    Point { device, tally, at }
}

// One event.
fn take_one(p: Point, events: &[u8]) -> Point
    requires { (p.at < most_events) × Within (most_events - 1) p.tally }
    ensures { result ≡ one_taken p (event_at p.at events.now) }
{
    let at = p.at;
    let r = event_at(events, at);
    let s = step_device(p.device, r);
    point_with(s.device, note_after(r, s.device, p.tally), at + 1)
}

// j quiet TICKs: what is seen of the state after each is the same.
fn take_quiet(p: Point, j: u16) -> Point
    requires { (j ≤ most_events) × (p.at ≤ most_events) × Within (most_events - j) p.tally }
    ensures { result ≡ quiet_taken p j }
{
    let d = after_ticks(j, p.device);
    point_with(d, note(j, see(d), p.tally), p.at + (j as usize))
}

// How many events from here on are TICKs, or are none, up to a limit.
fn run_of(ticks: bool, events: &[u8], at: usize, limit: u16) -> u16
    requires { event_bytes * (at + limit) ≤ length events.now }
    ensures { (result ≤ limit) × AllSuch ticks result at events.now }
{
    for k in 0..limit {
        if is_tick(event_at(events, at + (k as usize))) != ticks {
            return k;
        }
    }
    limit
}

// How many quiet TICKs follow from here on. Where the next event is none, nobody asks how many are quiet; of a settled device the counts alone are asked.
fn quiet_run(d: Device, events: &[u8], at: usize) -> u16
    requires { (at < event_count events.now) × Settled d }
    ensures { (at + result ≤ event_count events.now) × (result ≤ quiet_ticks d) × AllTicks result at events.now }
{
    if is_tick(event_at(events, at)) {
        let quiet = (counts_left(d) as usize).min(events.len() / EVENT_BYTES - at);
        run_of(true, events, at, quiet as u16)
    } else {
        0
    }
}

// Events of which none is a TICK are run so many at a time, so that the answers, which nobody looks at, have room.
const MOST_TOGETHER: usize = 32;

// k events of which none is a TICK.
fn take_others(p: Point, events: &[u8], k: u16) -> Point
    requires { (k ≤ 32) × (p.at + k ≤ most_events) × (event_bytes * (p.at + k) ≤ length events.now) × Settled p.device }
    ensures { result ≡ others_taken p k events.now }
{
    let at = p.at;
    let next = at + (k as usize);
    let from = EVENT_BYTES * at;
    let end = EVENT_BYTES * next;
    let mut answers = [0u8; 128];
    match run_settled(p.device, &events[from..end], &mut answers) {
        Ok(run) => point_with(run.device, p.tally, next),
        // This never happens: whole events with room for their answers are not refused.
        Err(_) => point_with(p.device, p.tally, next),
    }
}

// A TICK, and quiet ones that follow it.
fn take_ticks(p: Point, events: &[u8]) -> Point
    requires { (p.at < event_count events.now) × (event_count events.now ≤ most_events) × Within p.at p.tally × Settled p.device }
    ensures { Onward events.now (event_count events.now) p result }
{
    let j = quiet_run(p.device, events, p.at);
    if j == 0 {
        take_one(p, events)
    } else {
        take_quiet(p, j)
    }
}

fn take_next(p: Point, events: &[u8]) -> Point
    requires { (p.at < event_count events.now) × (event_count events.now ≤ most_events) × Within p.at p.tally × Settled p.device }
    ensures { Onward events.now (event_count events.now) p result }
{
    let few = MOST_TOGETHER.min(events.len() / EVENT_BYTES - p.at);
    let k = run_of(false, events, p.at, few as u16);
    if k == 0 {
        take_ticks(p, events)
    } else {
        take_others(p, events, k)
    }
}

fn count_all(from: Device, events: &[u8]) -> Tally
    requires { (event_count events.now ≤ most_events) × Settled from }
    ensures { result ≡ tally_from no_tally (states_from from (raws_in (event_count events.now) events.now)) }
{
    let mut p = point_with(from, empty_tally(), 0);
    // Each turn takes as many events as go together, so the place is counted by hand.
    while p.at < events.len() / EVENT_BYTES {
        p = take_next(p, events);
    }
    p.tally
}

// The states after the TICKs among the first n events, of which there are enough and no more than a trace has; else nothing is counted.
pub(crate) fn count_events(from: Device, events: &[u8], n: usize) -> Tally
    requires { Settled from }
    ensures { result ≡ counted_in from events.now n }
{
    if (MOST_EVENTS < n) | (events.len() / EVENT_BYTES < n) {
        return empty_tally();
    }
    count_all(from, &events[..EVENT_BYTES * n])
}
