// A capture turned into events. Nothing may be written where a capture is refused, and its last sample can still refuse it; so the events are
// kept in a list of the call's own until the end, and copied into the lent buffer then. The list has room for the most that a capture gives.
#![tactic(auto)]

mod kept;

ghost use Rattle.std.specs.Prelude.{◌+◌, ◌*◌, ◌≤◌, ◌<◌, ◌≡◌, ◌||◌, [], ◌∷◌, length};
ghost use Rattle.arbiter.specs.Marks.{raw};
ghost use Rattle.capture.specs.OneBus.{is_cut};
ghost use Rattle.capture.specs.Events.{from_one, together, master_byte, raw_of, event_bytes, captured};
ghost use Rattle.capture.specs.Import.{imported, imported_buffer, import_told};
ghost use Rattle.capture.specs.Samples.{both_silent, both_after};
ghost use Rattle.importing.specs.Listed.{listed, one_listed};

use crate::kept::Kept;
use arbiter::{Event, Master, Raw};
use capture::{Awaited, Both, Given, ImportFault, Listener};
use hearing::hear_sample;
use straps::in_range;

// ---- the order of two masters' events

fn given_by_1(h: Option<Given>) -> Option<Event>
    ensures { one_listed result ≡ from_one h }
{
    match h? {
        Given::Written(v) => Some(Event::Write(Master::One, v)),
        Given::Gives(e) => Some(e),
    }
}

// The events of one sample: none, or one, or two, of which this is the first and the second.
#[tactic(auto, unfolding(capture::specs::Events::together))]
pub fn few_of(g: Option<Given>, h: Option<Given>) -> Option<(Event, Option<Event>)>
    ensures { listed result ≡ together g h }
{
    match (g, h) {
        (None, _) => given_by_1(h).map(|e| (e, None)),
        (Some(Given::Written(v)), Some(Given::Written(u))) => Some((Event::Pair(v, u), None)),
        (Some(Given::Written(v)), _) => Some((Event::Write(Master::Zero, v), given_by_1(h))),
        (Some(Given::Gives(e)), _) => Some((e, given_by_1(h))),
    }
}

// ---- an event's bytes

fn master_byte(m: Master) -> u8
    ensures { result ≡ master_byte m }
{
    m as u8
}

fn raw_with(kind: u8, x: u8, y: u8, z: u8) -> Raw
    ensures { result ≡ raw kind x y z }
{
    Raw { kind, x, y, z }
}

#[tactic(auto, unfolding(capture::specs::Events::raw_of))]
pub fn raw_of(e: Event) -> Raw
    ensures { result ≡ raw_of e }
{
    match e {
        Event::Command(m, c) => raw_with(0, master_byte(m), c, 0),
        Event::Write(m, v) => raw_with(1, master_byte(m), v, 0),
        Event::Read(m) => raw_with(2, master_byte(m), 0, 0),
        Event::Stop(m) => raw_with(3, master_byte(m), 0, 0),
        Event::Pair(v0, v1) => raw_with(4, v0, v1, 0),
        Event::Lines(scl, sda, intin) => {
            raw_with(5, u8::from(scl), u8::from(sda), u8::from(intin))
        }
        Event::Tick => raw_with(6, 0, 0, 0),
        Event::Pulse(sda) => raw_with(7, u8::from(sda), 0, 0),
        Event::Reset => raw_with(8, 0, 0, 0),
        Event::GeneralCall(m, b) => raw_with(9, master_byte(m), b, 0),
    }
}

// ---- both buses

fn silent_both() -> Both
    ensures { result ≡ both_silent }
{
    let silent = Listener {
        awaited: Awaited::NoByte,
        clocks: 0,
        value: 0,
        owed: false,
        broken: false,
    };
    Both {
        bus0: silent,
        bus1: silent,
    }
}

fn is_cut(l: Listener) -> bool
    ensures { result ≡ is_cut l }
{
    l.broken | (1 < l.clocks)
}

// Through all samples, each with the one before it: the events are kept one after the other. What it finds is both buses at the end.
#[tactic(auto, using(capture::proofs::Prefix::first_both))]
fn walk(samples: &[u8], address: u8, list: &mut Kept) -> Both
    requires { (length samples.now ≤ 32768) × (list.old ≡ []) }
    ensures found { result ≡ both_after address samples.now }
    ensures written { list.new ≡ event_bytes (captured address samples.now) }
{
    let mut both = silent_both();
    for two in samples.windows(2) {
        let heard = hear_sample(address, two[0], two[1], both);
        list.push_few(few_of(heard.given0, heard.given1));
        both = heard.both;
    }
    both
}

// ---- the call

// The events of a capture, for a device of this address, four bytes each in the lent buffer, and how many they are.
pub fn import_capture(samples: &[u8], address: u8, events: &mut [u8]) -> Result<usize, ImportFault>
    ensures { (import_told result ≡ imported address samples.now events.old) × (events.new ≡ imported_buffer address samples.now events.old) }
{
    if 32768 < samples.len() {
        return Err(ImportFault::TooLong);
    }
    if !in_range(address) {
        return Err(ImportFault::BadAddress);
    }
    let mut list = Kept::new();
    let both = walk(samples, address, &mut list);
    if is_cut(both.bus0) | is_cut(both.bus1) {
        return Err(ImportFault::Cut);
    }
    let bytes = list.bytes();
    let n = bytes.len();
    if events.len() < n {
        return Err(ImportFault::NoRoom);
    }
    events[..n].copy_from_slice(bytes);
    Ok(n / 4)
}
