// An image read: as a device, whether it is one, and a register of it. By the table of crates/layout/specs/Layout.antt. What the numbers of its
// fields stand for is in `numbers`, and their ranges in `fitting`.
#![tactic(auto)]

mod fitting;
mod numbers;

ghost use Rattle.std.specs.Prelude.{◌<◌, ◌≤◌, ◌≡◌, length, take};
ghost use Rattle.arbiter.specs.Registers.{register_byte, reads_at};
ghost use Rattle.layout.specs.Layout.{image_length, kind_in, word_at, flag_at, side_in, bus_in, arb_in, device_in};
ghost use Rattle.layout.specs.Images.{image_number, shown};
ghost use Rattle.layout.specs.Refusals.{number_of, shown_of};

use crate::fitting::in_range;
use crate::numbers::{control_of, last_numbered, port_numbered, switch_numbered, turn_numbered};
use arbiter::{Arbitration, Bus, Device, Kind, Mailbox, Master, Register, Side};
use fields::{master_of, owns_turn, register_at};
use format::{byte_at, kind_of};
use layout::{IMAGE_LENGTH, ImageRefusal};
use registers::register_byte;

// ---- bytes

// A byte that stands for a bit: 1 is true.
pub fn flag_at(at: usize, b: &[u8]) -> bool
    ensures { result ≡ flag_at at b.now }
{
    byte_at(at, b) == 1
}

// The same of an image: its length is in its type, and asked once.
fn flag_in(at: usize, b: &[u8; IMAGE_LENGTH]) -> bool
    requires { at < 38 }
    ensures { result ≡ flag_at at b.now }
{
    b[at] == 1
}

// Two bytes, the low one first.
pub(crate) fn word_in(at: usize, b: &[u8; IMAGE_LENGTH]) -> u16
    requires { at < 37 }
    ensures { result ≡ word_at at b.now }
{
    u16::from_le_bytes([b[at], b[at + 1]])
}

pub(crate) fn kind_in(b: &[u8; IMAGE_LENGTH]) -> Kind
    ensures { result ≡ kind_in b.now }
{
    kind_of(b[31])
}

// ---- read

// A master's registers from `at` on, and its port from `port` on.
#[tactic(auto, unfolding(layout::specs::Layout::side_in))]
fn side_in(at: usize, port: usize, b: &[u8; IMAGE_LENGTH]) -> Side
    requires { (at < 32) × (port < 36) }
    ensures { result ≡ side_in at port b.now }
{
    Side {
        contr: control_of(b[at]),
        rt: b[at + 1],
        ints: b[at + 2],
        mask: b[at + 3],
        mail: Mailbox {
            low: b[at + 4],
            high: b[at + 5],
            full: flag_in(at + 6, b),
        },
        port: port_numbered(b[port]),
        pointer: register_at(b[port + 1]),
        auto: flag_in(port + 2, b),
    }
}

#[tactic(auto, unfolding(layout::specs::Layout::bus_in))]
fn bus_in(b: &[u8; IMAGE_LENGTH]) -> Bus
    ensures { result ≡ bus_in b.now }
{
    Bus {
        hold: b[15],
        lowscl: word_in(16, b),
        lowsda: word_in(18, b),
        idle: b[20],
        outscl: flag_in(21, b),
        outsda: flag_in(22, b),
        intin: flag_in(23, b),
        drivescl: flag_in(24, b),
        drivesda: flag_in(25, b),
        busy: flag_in(26, b),
    }
}

#[tactic(auto, unfolding(layout::specs::Layout::arb_in))]
fn arb_in(b: &[u8; IMAGE_LENGTH]) -> Arbitration
    ensures { result ≡ arb_in b.now }
{
    Arbitration {
        reserve: b[14],
        turn: turn_numbered(b[27]),
        last: last_numbered(b[28]),
        switch: switch_numbered(b[29]),
        initfail: flag_in(30, b),
    }
}

#[tactic(auto, unfolding(layout::specs::Layout::device_in))]
fn device_in(b: &[u8; IMAGE_LENGTH]) -> Device
    ensures { result ≡ device_in b.now }
{
    Device {
        kind: kind_in(b),
        side0: side_in(0, 32, b),
        side1: side_in(7, 35, b),
        bus: bus_in(b),
        arb: arb_in(b),
    }
}

// The image that a buffer begins with, as it lies there: a copy of it costs a microcontroller half a step. By `as_chunks`, since compiled for wasm32 a
// slice that is tried as an array of its length is refused.
fn front(b: &[u8]) -> &[u8; IMAGE_LENGTH]
    requires { image_length ≤ length b.now }
    ensures { result.now ≡ take image_length b.now }
{
    &b[..IMAGE_LENGTH].as_chunks::<IMAGE_LENGTH>().0[0]
}

// The device of an image. A shorter buffer is taken as if 0 followed it; whoever steps or shows a device has asked for the length first.
pub fn read_image(b: &[u8]) -> Device
    ensures { result ≡ device_in b.now }
{
    if b.len() < IMAGE_LENGTH {
        let mut image = [0; IMAGE_LENGTH];
        image[..b.len()].copy_from_slice(b);
        device_in(&image)
    } else {
        device_in(front(b))
    }
}

// ---- whether it is one

// An image has its length, and every field in its range.
#[tactic(auto, unfolding(layout::specs::Images::image_number, layout::specs::Refusals::number_of))]
pub fn check_image(b: &[u8]) -> Result<(), ImageRefusal>
    ensures { number_of result ≡ image_number b.now }
{
    if b.len() != IMAGE_LENGTH {
        return Err(ImageRefusal::Length);
    }
    if in_range(front(b)) {
        Ok(())
    } else {
        Err(ImageRefusal::Range)
    }
}

// ---- a register read

// What a master reads of this register. The crate `registers` reads at the pointer, so the side is handed over with its pointer there.
#[tactic(auto, using(crate::proofs::Pointer::at_pointer))]
fn reads(
    r: Register,
    granted: bool,
    theirs: bool,
    own: Side,
    other: Side,
    b: Bus,
    initfail: bool,
) -> u8
    ensures { result ≡ register_byte r granted theirs own other b initfail }
{
    let at = Side { pointer: r, ..own };
    register_byte(granted, theirs, at, other, b, initfail)
}

fn reads_at(r: Register, m: Master, d: Device) -> u8
    ensures { result ≡ reads_at r m d }
{
    let zero = owns_turn(Master::Zero, d.arb.turn);
    let one = owns_turn(Master::One, d.arb.turn);
    match m {
        Master::Zero => reads(r, zero, one, d.side0, d.side1, d.bus, d.arb.initfail),
        Master::One => reads(r, one, zero, d.side1, d.side0, d.bus, d.arb.initfail),
    }
}

// What a master reads of a register of an image, without an event: nothing changes. Refused as an image is, and then for a master above 1 or a register
// above 7.
#[tactic(auto, using(layout::proofs::Once::is_good, layout::proofs::Once::is_bad), unfolding(layout::specs::Images::shown, layout::specs::Images::shown_number, layout::specs::Refusals::shown_of, layout::specs::Refusals::number_of))]
pub fn read_register(m: u8, r: u8, b: &[u8]) -> Result<u8, ImageRefusal>
    ensures { shown_of result ≡ shown m r b.now }
{
    check_image(b)?;
    if (m < 2) & (r < 8) {
        Ok(reads_at(register_at(r), master_of(m), read_image(b)))
    } else {
        Err(ImageRefusal::Argument)
    }
}
