// A whole step: four bytes in, the new device and the four answer bytes out.
#![tactic(auto)]

ghost use Rattle.std.specs.Prelude.{◌+◌, ◌*◌, ◌≤◌, ◌≡◌, false};
ghost use Rattle.arbiter.specs.Words.{worth};
ghost use Rattle.arbiter.specs.State.{is_initialising};
ghost use Rattle.arbiter.specs.Order.{levels};
ghost use Rattle.arbiter.specs.Effects.{power_up};
ghost use Rattle.arbiter.specs.Steps.{master_number, owner_number, ground_number, turn_ground, switch_number, owner_byte, lines_byte, answer, step_event, step};
ghost use Rattle.step.specs.Carried.{parts_three_to_seven, is_silent, is_quiet, finished, stepped_with};

use arbiter::{
    Answer, Bus, Clock, Device, Event, Ground, Kind, Master, Outcome, Raw, Stepped, Switch, Turn,
};
use arbitration::claims::{claim_of, grant_of, no_claim, no_grant};
use arbitration::losses::{cut_at, losses_of, no_cut, no_loss};
use bits::worth_of;
use bus::{bus_hung, scl_high, sda_high, settled_bus};
use connection::{connect_of, switch_stays};
use effects::{Effect, did_so, effect_of};
use events::{clock_of, decode_raw, decoded_number, is_tick, outcome_number};
use registers::is_asserted_by;
use resets::fresh_device;

// ---- parts 2 to 7

#[tactic(auto, unfolding(arbiter::specs::Order::levels))]
fn levelled(before: Bus, d: Device) -> Device
    ensures { result ≡ levels false before d }
{
    Device {
        bus: settled_bus(before, d.bus),
        ..d
    }
}

fn is_silent(c: Clock) -> bool
    ensures { result ≡ is_silent c }
{
    c == Clock::NoClock
}

// Parts 3 to 7 have nothing to do, the event being no clock. Asked from the last part to the first, which was measured to run fastest.
#[tactic(auto, unfolding(crate::specs::Carried::is_quiet))]
fn is_quiet(tick: bool, d: Device) -> bool
    ensures { result ≡ is_quiet tick d }
{
    switch_stays(d.arb.turn, d)
        & no_grant(d.arb.turn, d)
        & no_claim(d.arb.turn, d)
        & no_cut(tick, d.arb.turn, d)
        & no_loss(d.arb.turn, d)
}

fn parts_3_to_7_in_full(tick: bool, c: Clock, d: Device) -> Device
    ensures { result ≡ parts_three_to_seven tick c d }
{
    connect_of(c, grant_of(claim_of(cut_at(tick, losses_of(d)))))
}

fn parts_3_to_7(tick: bool, c: Clock, d: Device) -> Device
    ensures { result ≡ parts_three_to_seven tick c d }
{
    if is_silent(c) & is_quiet(tick, d) {
        d
    } else {
        parts_3_to_7_in_full(tick, c, d)
    }
}

// ---- the answer

fn bits_0_and_1(m: Master) -> u8
    ensures { (result ≡ master_number m) × (result ≤ 2) }
{
    m as u8 + 1
}

fn bits_5_and_6(g: Ground) -> u8
    ensures { (result ≡ 32 * ground_number g) × (result ≤ 96) }
{
    32 * (g as u8)
}

// The owner at bits 0 and 1, and the ground of the present claim at bits 5 and 6.
fn turn_bits(t: Turn) -> u8
    ensures { (result ≡ owner_number t + 32 * turn_ground t) × (result ≤ 98) }
{
    match t {
        Turn::Nobody => 0,
        Turn::Claims(_, g) => bits_5_and_6(g),
        Turn::Owns(m, g) => bits_0_and_1(m) + bits_5_and_6(g),
    }
}

fn bits_2_and_3(m: Master) -> u8
    ensures { (result ≡ 4 * master_number m) × (result ≤ 8) }
{
    4 * (m as u8 + 1)
}

// The switch at bits 2 and 3, or the initialisation at bit 4.
fn switch_bits(w: Switch) -> u8
    ensures { (result ≡ 4 * switch_number w + worth 16 (is_initialising w)) × (result ≤ 16) }
{
    match w {
        Switch::Apart => 0,
        Switch::Initialising(_, _) => 16,
        Switch::Closed(m) => bits_2_and_3(m),
    }
}

#[tactic(auto, using(crate::proofs::Laws::owner_sum), unfolding(arbiter::specs::Steps::owner_byte))]
fn owner_byte(d: Device) -> u8
    ensures { result ≡ owner_byte d }
{
    turn_bits(d.arb.turn) + switch_bits(d.arb.switch)
}

fn lines_byte(d: Device) -> u8
    ensures { result ≡ lines_byte d }
{
    let hung = bus_hung(d.bus);
    let int0 = is_asserted_by(hung, d.side0.ints, d.side0.mask);
    let int1 = is_asserted_by(hung, d.side1.ints, d.side1.mask);
    worth_of(1, int0)
        + worth_of(2, int1)
        + worth_of(4, scl_high(d.bus))
        + worth_of(8, sda_high(d.bus))
}

// The four bytes of an answer, with the device as it is after the step.
pub fn answered(number: u8, byte: u8, d: Device) -> Answer
    ensures { result ≡ answer number byte d }
{
    Answer {
        outcome: number,
        read: byte,
        owner: owner_byte(d),
        lines: lines_byte(d),
    }
}

// ---- a step

// Parts 2 to 7 after an event's own effect, and nothing after one out of sequence.
pub fn finish(e: Event, before: Bus, f: Effect) -> Effect
    ensures { result ≡ finished e before f }
{
    if f.outcome == outcome_number(Outcome::OutOfSequence) {
        f
    } else {
        did_so(
            parts_3_to_7(is_tick(e), clock_of(e), levelled(before, f.device)),
            f.outcome,
            f.read,
        )
    }
}

// A device of this kind after power-up.
pub fn fresh(kind: Kind) -> Device
    ensures { result ≡ power_up kind }
{
    fresh_device(kind)
}

fn stepped_with(device: Device, answer: Answer) -> Stepped
    ensures { result ≡ stepped_with device answer }
{
    Stepped { device, answer }
}

// An event through all parts, answered with the device as it is after them. One out of sequence leaves the device as it was.
fn step_event(e: Event, d: Device) -> Stepped
    ensures { result ≡ step_event e d }
{
    let f = finish(e, d.bus, effect_of(e, d));
    stepped_with(f.device, answered(f.outcome, f.read, f.device))
}

// The step of document 01, of any device: the new device and the answer. Bytes that are no event leave the device as it was.
pub fn step_device(d: Device, r: Raw) -> Stepped
    ensures { result ≡ step d r }
{
    let read = decode_raw(r);
    let Ok(e) = read else {
        return stepped_with(d, answered(decoded_number(read), 0, d));
    };
    step_event(e, d)
}
