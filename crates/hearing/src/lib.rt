// Two samples after each other on both buses: what becomes of the bytes in hand. The end of a byte is in `ends`, and the ways for samples that
// change nothing or add a bit, which most are, in `short`.
#![tactic(auto)]

mod ends;
mod short;

ghost use Rattle.std.specs.Prelude.{◌≡◌, false};
ghost use Rattle.capture.specs.declared.Sign.TheVariants.{Stops};
ghost use Rattle.capture.specs.OneBus.{sign, started, stopped, heard, gives};
ghost use Rattle.capture.specs.Samples.{sampled};
ghost use Rattle.hearing.specs.Light.{is_light, unheard};

use crate::ends::{awaited_after, byte_gives, is_outside, is_owing};
use crate::short::{are_light, is_light, is_still, levels, with_bit, with_bits};
use arbiter::{Event, Master};
use capture::{Awaited, Both, Given, Heard, Levels, Listener};

// What becomes of one bus with a sample.
#[derive(Clone, Copy)]
pub struct Told {
    pub bus: Listener,
    pub given: Option<Given>,
}

// A sample that gives nothing.
pub fn nothing_given(both: Both) -> Heard
    ensures { result ≡ unheard both }
{
    Heard {
        both,
        given0: None,
        given1: None,
    }
}

// ---- the long way, of a bus where a sample is not light: a START or STOP, the ninth clock of a byte, or a clock outside START to STOP

#[tactic(auto, unfolding(capture::specs::OneBus::started))]
fn on_start(l: Listener) -> Listener
    ensures { result ≡ started l }
{
    Listener {
        awaited: Awaited::AddressByte,
        clocks: 0,
        value: 0,
        broken: l.broken | (1 < l.clocks),
        ..l
    }
}

#[tactic(auto, unfolding(capture::specs::OneBus::stopped))]
fn on_stop(l: Listener) -> Listener
    ensures { result ≡ stopped l }
{
    Listener {
        awaited: Awaited::NoByte,
        clocks: 0,
        value: 0,
        owed: false,
        broken: l.broken | (1 < l.clocks),
    }
}

#[tactic(auto, unfolding(capture::specs::OneBus::gives))]
fn stop_gives(m: Master, l: Listener) -> Option<Given>
    ensures { result ≡ gives m Stops l }
{
    if l.owed {
        Some(Given::Gives(Event::Stop(m)))
    } else {
        None
    }
}

// A byte's end is written out here: as a function of its own it takes two thirds more instructions a sample.
fn heavily(m: Master, address: u8, was: Levels, now: Levels, l: Listener) -> Told
    requires { is_light was now l ≡ false }
    ensures { (result.bus ≡ heard address (sign was now) l) × (result.given ≡ gives m (sign was now) l) }
{
    let awaited = l.awaited;
    if was.scl {
        if now.sda {
            Told {
                bus: on_stop(l),
                given: stop_gives(m, l),
            }
        } else {
            Told {
                bus: on_start(l),
                given: None,
            }
        }
    } else if is_outside(awaited) {
        Told {
            bus: l,
            given: None,
        }
    } else {
        Told {
            bus: Listener {
                awaited: awaited_after(address, awaited, l.value),
                clocks: 0,
                value: 0,
                owed: l.owed | is_owing(awaited),
                ..l
            },
            given: byte_gives(m, awaited, l.value),
        }
    }
}

// ---- both ways together

#[tactic(auto, using(crate::proofs::Light::light_heard, crate::proofs::Light::light_gives))]
fn hear_one(m: Master, address: u8, was: Levels, now: Levels, l: Listener) -> Told
    ensures { (result.bus ≡ heard address (sign was now) l) × (result.given ≡ gives m (sign was now) l) }
{
    if is_light(was, now, l) {
        Told {
            bus: with_bit(was, now, l),
            given: None,
        }
    } else {
        heavily(m, address, was, now, l)
    }
}

// One sample after the one before it, on both buses, for a listener.
#[tactic(auto, using(crate::proofs::Heavy::both_heard))]
pub fn hear_watched(address: u8, before: u8, now: u8, s: Both) -> Heard
    ensures { result ≡ sampled address before now s }
{
    let t = hear_one(
        Master::Zero,
        address,
        levels(Master::Zero, before),
        levels(Master::Zero, now),
        s.bus0,
    );
    let u = hear_one(
        Master::One,
        address,
        levels(Master::One, before),
        levels(Master::One, now),
        s.bus1,
    );
    Heard {
        both: Both {
            bus0: t.bus,
            bus1: u.bus,
        },
        given0: t.given,
        given1: u.given,
    }
}

// One sample after the one before it, on both buses, for a capture: most of its samples are still or light, and both buses are seldom heavy at once.
#[tactic(auto, using(crate::proofs::Light::still_sampled, crate::proofs::Light::light_sampled))]
pub fn hear_sample(address: u8, before: u8, now: u8, s: Both) -> Heard
    ensures { result ≡ sampled address before now s }
{
    if is_still(before, now) {
        nothing_given(s)
    } else if are_light(before, now, s) {
        nothing_given(with_bits(before, now, s))
    } else {
        hear_watched(address, before, now, s)
    }
}
