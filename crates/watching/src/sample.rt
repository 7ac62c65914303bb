// One sample of a watched bus: what it gives on the bus below, on both buses above and by the clock, each event followed on the device, and what is
// known after it.
ghost use Rattle.std.specs.Prelude.{◌+◌, ◌<◌, ◌≡◌, true, ◌&&◌};
ghost use Rattle.arbiter.specs.Words.{bit};
ghost use Rattle.arbiter.specs.declared.Event.TheVariants.{Lines};
ghost use Rattle.importing.specs.Listed.{listed, one_listed};
ghost use Rattle.watch.specs.Sample.{levels_below, below_before, lines_given, heard_now, mended, both_mended, faults_in, is_timed, is_due, ticks_given, since_after, ear_after};
ghost use Rattle.watch.specs.Stream.{followed, followed_all, heard_by, watched_at};

use crate::counting::{tally_with, with_sample};
use arbiter::Event;
use capture::{Both, Heard, Listener};
use hearing::{hear_watched, nothing_given};
use importing::{few_of, raw_of};
use step::step_device;
use watch::{Ear, Settings, Watcher};

// ---- one event

#[tactic(auto, unfolding(watch::specs::Stream::followed))]
fn follow(e: Event, w: Watcher) -> Watcher
    ensures { result ≡ followed e w }
{
    let stepped = step_device(w.device, raw_of(e));
    Watcher {
        device: stepped.device,
        tally: tally_with(e, w.ear.both, w.device, w.tally, stepped.answer.read),
        ..w
    }
}

// An event with none beside it: all three kinds of events of a sample go one way, which a microcontroller has once.
fn alone(event: Option<Event>) -> Option<(Event, Option<Event>)>
    ensures { listed result ≡ one_listed event }
{
    event.map(|e| (e, None))
}

#[tactic(auto, unfolding(watch::specs::Stream::followed_all))]
fn follow_few(few: Option<(Event, Option<Event>)>, w: Watcher) -> Watcher
    ensures { result ≡ followed_all (listed few) w }
{
    match few {
        None => w,
        Some((e, None)) => follow(e, w),
        Some((first, Some(second))) => follow(second, follow(first, w)),
    }
}

// ---- the bus below

fn levels_below(x: u8) -> u8
    ensures { result ≡ levels_below x }
{
    x / 16 % 8
}

fn below_before(e: Ear) -> u8
    ensures { result ≡ below_before e }
{
    if e.begun { levels_below(e.before) } else { 7 }
}

fn lines_in(x: u8) -> Event
    ensures { result ≡ Lines (bit 4 x) (bit 5 x) (bit 6 x) }
{
    Event::Lines(x / 16 % 2 == 1, x / 32 % 2 == 1, x / 64 % 2 == 1)
}

#[tactic(auto, unfolding(watch::specs::Sample::lines_given))]
fn lines_given(c: Settings, x: u8, e: Ear) -> Option<Event>
    ensures { one_listed result ≡ lines_given c x e }
{
    if c.below & (below_before(e) != levels_below(x)) {
        Some(lines_in(x))
    } else {
        None
    }
}

// ---- both buses above

#[tactic(auto, unfolding(watch::specs::Sample::heard_now))]
fn heard_now(c: Settings, x: u8, e: Ear) -> Heard
    ensures { result ≡ heard_now c x e }
{
    if e.begun {
        hear_watched(c.address, e.before, x, e.both)
    } else {
        nothing_given(e.both)
    }
}

// A fault is forgotten when it is counted, and listening goes on.
fn mended_of(l: Listener) -> Listener
    ensures { result ≡ mended l }
{
    Listener { broken: false, ..l }
}

fn both_mended(s: Both) -> Both
    ensures { result ≡ both_mended s }
{
    Both {
        bus0: mended_of(s.bus0),
        bus1: mended_of(s.bus1),
    }
}

fn faults_in(s: Both) -> u64
    ensures { result ≡ faults_in s }
{
    u64::from(s.bus0.broken) + u64::from(s.bus1.broken)
}

// ---- time

fn is_timed(c: Settings, e: Ear) -> bool
    ensures { result ≡ is_timed c e }
{
    e.begun & (c.every != 0)
}

// Asked without an addition, which could go past the top.
fn is_due(c: Settings, e: Ear) -> bool
    ensures { result ≡ is_due c e }
{
    if e.since < c.every {
        c.every - e.since <= 1
    } else {
        true
    }
}

#[tactic(auto, unfolding(watch::specs::Sample::ticks_given))]
fn ticks_given(c: Settings, e: Ear) -> Option<Event>
    ensures { one_listed result ≡ ticks_given c e }
{
    if is_timed(c, e) & is_due(c, e) {
        Some(Event::Tick)
    } else {
        None
    }
}

#[tactic(auto, using(crate::proofs::Sums::due_far), unfolding(watch::specs::Sample::since_after))]
fn since_after(c: Settings, e: Ear) -> u32
    ensures { result ≡ since_after c e }
{
    if is_timed(c, e) & !is_due(c, e) {
        e.since + 1
    } else {
        0
    }
}

// ---- the whole sample

#[tactic(auto, unfolding(watch::specs::Sample::ear_after))]
fn ear_after(c: Settings, x: u8, e: Ear, heard: Both) -> Ear
    requires { heard ≡ (heard_now c x e).both }
    ensures { result ≡ ear_after c x e }
{
    Ear {
        begun: true,
        before: x,
        since: since_after(c, e),
        both: both_mended(heard),
    }
}

#[tactic(auto, unfolding(watch::specs::Stream::heard_by))]
fn heard_by(x: u8, w: Watcher, after: Watcher, heard: Both) -> Watcher
    requires { heard ≡ (heard_now w.settings x w.ear).both }
    ensures { result ≡ heard_by x w after }
{
    Watcher {
        settings: w.settings,
        ear: ear_after(w.settings, x, w.ear, heard),
        device: after.device,
        tally: with_sample(faults_in(heard), after.tally),
    }
}

// The bus below moves first, then the buses above speak, and then time passes.
#[tactic(auto, using(crate::proofs::Parts::sample_watched))]
pub(crate) fn watch_sample(x: u8, w: Watcher) -> Watcher
    ensures { result ≡ watched_at x w }
{
    let heard = heard_now(w.settings, x, w.ear);
    let moved = follow_few(alone(lines_given(w.settings, x, w.ear)), w);
    let spoken = follow_few(few_of(heard.given0, heard.given1), moved);
    let passed = follow_few(alone(ticks_given(w.settings, w.ear)), spoken);
    heard_by(x, w, passed, heard.both)
}
