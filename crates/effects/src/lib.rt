// Part 1 of a step: each event's own effect, with its outcome and the byte read. An event out of sequence changes nothing.
#![tactic(auto)]

ghost use Rattle.std.specs.Prelude.{◌≡◌};
ghost use Rattle.arbiter.specs.Effects.{ticked_arb};
ghost use Rattle.arbiter.specs.Events.{outcome_number};
ghost use Rattle.arbiter.specs.declared.Outcome.TheVariants.{OutOfSequence};
ghost use Rattle.arbiter.specs.declared.Event.TheVariants.{Command, Write, Read, Stop, Pair, Lines, Tick, Pulse, Reset, GeneralCall};
ghost use Rattle.effects.specs.Effect.{did, effect_of};

use arbiter::{Arbitration, Device, Event, Master, Outcome};
use bus::{outside_of, ticked_bus};
use connection::initialises;
use events::{acknowledged_number, outcome_number};
use fields::{idle_limit, owns_turn, partner_of, side_of, sides_of, with_sides};
use ports::{commanded_side, is_at_rest, is_for_writing, stopped_side};
use registers::{empties_own, fallen_side, reader_side, register_byte, sender_side};
use resets::{reset_device, soft_reset};
use writing::{paired_by, writable_at, written_by};

// The outcome goes by its number: `did` and `finished` of the definitions take any, and so does the answer that it becomes.
#[derive(Clone, Copy)]
pub struct Effect {
    pub device: Device,
    pub outcome: u8,
    pub read: u8,
}

pub fn did_so(d: Device, number: u8, byte: u8) -> Effect
    ensures { result ≡ did d number byte }
{
    Effect {
        device: d,
        outcome: number,
        read: byte,
    }
}

// An event out of sequence changes nothing.
fn out_of_sequence(d: Device) -> Effect
    ensures { result ≡ did d (outcome_number OutOfSequence) 0 }
{
    did_so(d, outcome_number(Outcome::OutOfSequence), 0)
}

// ---- COMMAND

#[tactic(auto, unfolding(arbiter::specs::Events::acknowledged, arbiter::specs::Steps::byte_read, arbiter::specs::Effects::effect, crate::specs::Effect::effect_of, arbiter::specs::Events::in_sequence, arbiter::specs::Effects::lined, arbiter::specs::Events::outcome, arbiter::specs::Effects::ticked, arbiter::specs::Effects::was_read))]
fn on_command(m: Master, c: u8, d: Device) -> Effect
    ensures { result ≡ effect_of (Command m c) d }
{
    let (own, other) = sides_of(m, d);
    did_so(
        with_sides(m, commanded_side(c, own), other, d),
        acknowledged_number(c / 8 % 16 == 0),
        0,
    )
}

// ---- WRITE and PAIR

#[tactic(auto, unfolding(arbiter::specs::Events::acknowledged, arbiter::specs::Steps::byte_read, arbiter::specs::Effects::effect, crate::specs::Effect::effect_of, arbiter::specs::Events::in_sequence, arbiter::specs::Events::outcome))]
fn on_write(m: Master, v: u8, d: Device) -> Effect
    ensures { result ≡ effect_of (Write m v) d }
{
    let own = side_of(m, d);
    if is_for_writing(own.port) {
        let ok = writable_at(own.pointer);
        did_so(written_by(m, v, d), acknowledged_number(ok), 0)
    } else {
        out_of_sequence(d)
    }
}

#[tactic(auto, unfolding(arbiter::specs::Events::acknowledged, arbiter::specs::Steps::byte_read, arbiter::specs::Effects::effect, crate::specs::Effect::effect_of, arbiter::specs::Events::in_sequence, arbiter::specs::Events::outcome))]
fn on_pair(v0: u8, v1: u8, d: Device) -> Effect
    ensures { result ≡ effect_of (Pair v0 v1) d }
{
    if is_for_writing(d.side0.port) & is_for_writing(d.side1.port) {
        let ok = writable_at(d.side0.pointer) & writable_at(d.side1.pointer);
        did_so(paired_by(v0, v1, d), acknowledged_number(ok), 0)
    } else {
        out_of_sequence(d)
    }
}

// ---- READ

#[tactic(auto, using(crate::proofs::Laws::read_law))]
fn on_read(m: Master, d: Device) -> Effect
    ensures { result ≡ effect_of (Read m) d }
{
    let (own, other) = sides_of(m, d);
    let granted = owns_turn(m, d.arb.turn);
    let theirs = owns_turn(partner_of(m), d.arb.turn);
    did_so(
        with_sides(m, reader_side(own), sender_side(empties_own(own), other), d),
        outcome_number(Outcome::Done),
        register_byte(granted, theirs, own, other, d.bus, d.arb.initfail),
    )
}

// ---- STOP

#[tactic(auto, unfolding(arbiter::specs::Events::acknowledged, arbiter::specs::Steps::byte_read, arbiter::specs::Effects::effect, crate::specs::Effect::effect_of, arbiter::specs::Events::in_sequence, arbiter::specs::Events::outcome))]
fn on_stop(m: Master, d: Device) -> Effect
    ensures { result ≡ effect_of (Stop m) d }
{
    let (own, other) = sides_of(m, d);
    if is_at_rest(own.port) {
        out_of_sequence(d)
    } else {
        did_so(
            with_sides(m, stopped_side(own), other, d),
            outcome_number(Outcome::Done),
            0,
        )
    }
}

// ---- LINES, TICK and PULSE

#[tactic(auto, unfolding(arbiter::specs::Events::acknowledged, arbiter::specs::Steps::byte_read, arbiter::specs::Effects::effect, crate::specs::Effect::effect_of, arbiter::specs::Events::in_sequence, arbiter::specs::Effects::lined, arbiter::specs::Events::outcome, arbiter::specs::Effects::ticked, arbiter::specs::Effects::was_read))]
fn on_lines(scl: bool, sda: bool, intin: bool, d: Device) -> Effect
    ensures { result ≡ effect_of (Lines scl sda intin) d }
{
    let fell = d.bus.intin & !intin;
    did_so(
        Device {
            side0: fallen_side(fell, d.side0),
            side1: fallen_side(fell, d.side1),
            bus: outside_of(scl, sda, intin, d.bus),
            ..d
        },
        outcome_number(Outcome::Done),
        0,
    )
}

fn ticked_arb(a: Arbitration) -> Arbitration
    ensures { result ≡ ticked_arb a }
{
    Arbitration {
        reserve: a.reserve.saturating_sub(1),
        ..a
    }
}

#[tactic(auto, unfolding(arbiter::specs::Events::acknowledged, arbiter::specs::Steps::byte_read, arbiter::specs::Effects::effect, crate::specs::Effect::effect_of, arbiter::specs::Events::in_sequence, arbiter::specs::Effects::lined, arbiter::specs::Events::outcome, arbiter::specs::Effects::ticked, arbiter::specs::Effects::was_read))]
fn on_tick(d: Device) -> Effect
    ensures { result ≡ effect_of Tick d }
{
    let limit = idle_limit(d);
    did_so(
        Device {
            bus: ticked_bus(limit, d.bus),
            arb: ticked_arb(d.arb),
            ..d
        },
        outcome_number(Outcome::Done),
        0,
    )
}

#[tactic(auto, unfolding(arbiter::specs::Events::acknowledged, arbiter::specs::Steps::byte_read, arbiter::specs::Effects::effect, crate::specs::Effect::effect_of, arbiter::specs::Events::in_sequence, arbiter::specs::Events::outcome))]
fn on_pulse(sda: bool, d: Device) -> Effect
    ensures { result ≡ effect_of (Pulse sda) d }
{
    if initialises(d.arb.switch) {
        did_so(d, outcome_number(Outcome::Done), 0)
    } else {
        out_of_sequence(d)
    }
}

// ---- resets

#[tactic(auto, unfolding(arbiter::specs::Events::acknowledged, arbiter::specs::Steps::byte_read, arbiter::specs::Effects::effect, crate::specs::Effect::effect_of, arbiter::specs::Events::in_sequence, arbiter::specs::Effects::lined, arbiter::specs::Events::outcome, arbiter::specs::Effects::ticked, arbiter::specs::Effects::was_read))]
fn on_reset(d: Device) -> Effect
    ensures { result ≡ effect_of Reset d }
{
    did_so(reset_device(0, d), outcome_number(Outcome::Done), 0)
}

#[tactic(auto, unfolding(arbiter::specs::Events::acknowledged, arbiter::specs::Steps::byte_read, arbiter::specs::Effects::effect, crate::specs::Effect::effect_of, arbiter::specs::Events::in_sequence, arbiter::specs::Effects::lined, arbiter::specs::Events::outcome, arbiter::specs::Effects::ticked, arbiter::specs::Effects::was_read))]
fn on_general_call(m: Master, b: u8, d: Device) -> Effect
    ensures { result ≡ effect_of (GeneralCall m b) d }
{
    if b == 0x06 {
        did_so(soft_reset(m, d), outcome_number(Outcome::Done), 0)
    } else {
        did_so(d, outcome_number(Outcome::NotAcknowledged), 0)
    }
}

// ---- any event

pub fn effect_of(e: Event, d: Device) -> Effect
    ensures { result ≡ effect_of e d }
{
    match e {
        Event::Command(m, c) => on_command(m, c, d),
        Event::Write(m, v) => on_write(m, v, d),
        Event::Read(m) => on_read(m, d),
        Event::Stop(m) => on_stop(m, d),
        Event::Pair(v0, v1) => on_pair(v0, v1, d),
        Event::Lines(scl, sda, intin) => on_lines(scl, sda, intin, d),
        Event::Tick => on_tick(d),
        Event::Pulse(sda) => on_pulse(sda, d),
        Event::Reset => on_reset(d),
        Event::GeneralCall(m, b) => on_general_call(m, b, d),
    }
}
