// A device kept as an image in a lent buffer: a fresh one, and a step on it (request #108), and an advance (request #113).
#![tactic(auto)]

pub mod advancing;

ghost use Rattle.std.specs.Prelude.{◌<◌, ◌≡◌, true, false, length};
ghost use Rattle.arbiter.specs.Registers.{contr_byte};
ghost use Rattle.arbiter.specs.Steps.{step};
ghost use Rattle.ranges.specs.Ranges.{pulses, port_number, last_number, turn_number, state_number};
ghost use Rattle.layout.specs.Layout.{counts, image_length, laid_out, image_of, device_in};
ghost use Rattle.layout.specs.Refusals.{number_of};
ghost use Rattle.layout.specs.Images.{is_image, refused_by, image_answer, image_after, fresh_number, fresh_after};

use arbiter::{Answer, Control, Device, Ground, Master, Port, Raw, Switch, Turn};
use bits::byte_of;
use fields::register_number;
use format::{is_kind, kind_byte, kind_of};
use image::{check_image, read_image};
use layout::{IMAGE_LENGTH, ImageRefusal};
use step::{fresh, step_device};

// ---- the numbers of an image: functions and no `From`, since the types are of `arbiter`, and the numbers are an image's alone

fn port_number(p: Port) -> u8
    ensures { result ≡ port_number p }
{
    match p {
        Port::Rest => 0,
        Port::Open => 1,
        Port::Writing => 2,
    }
}

fn last_number(l: Option<Master>) -> u8
    ensures { result ≡ last_number l }
{
    match l {
        None => 0,
        Some(Master::Zero) => 1,
        Some(Master::One) => 2,
    }
}

fn turn_number(t: Turn) -> u8
    ensures { result ≡ turn_number t }
{
    match t {
        Turn::Nobody => 0,
        Turn::Claims(Master::Zero, Ground::Sole) => 1,
        Turn::Claims(Master::Zero, Ground::Priority) => 2,
        Turn::Claims(Master::Zero, Ground::LastGranted) => 3,
        Turn::Claims(Master::One, Ground::Sole) => 4,
        Turn::Claims(Master::One, Ground::Priority) => 5,
        Turn::Claims(Master::One, Ground::LastGranted) => 6,
        Turn::Owns(Master::Zero, Ground::Sole) => 7,
        Turn::Owns(Master::Zero, Ground::Priority) => 8,
        Turn::Owns(Master::Zero, Ground::LastGranted) => 9,
        Turn::Owns(Master::One, Ground::Sole) => 10,
        Turn::Owns(Master::One, Ground::Priority) => 11,
        Turn::Owns(Master::One, Ground::LastGranted) => 12,
    }
}

// The number of a switch whose PULSEs are in range: it fits its byte.
fn switch_number(w: Switch) -> u8
    requires { pulses w < 9 }
    ensures { result ≡ state_number w }
{
    match w {
        Switch::Apart => 0,
        Switch::Closed(Master::Zero) => 1,
        Switch::Closed(Master::One) => 2,
        Switch::Initialising(Master::Zero, n) => 3 + n,
        Switch::Initialising(Master::One, n) => 12 + n,
    }
}

#[tactic(auto, unfolding(arbiter::specs::Registers::contr_byte))]
fn contr_number(c: Control) -> u8
    ensures { result ≡ contr_byte false c }
{
    byte_of(
        c.priority,
        c.smbusdis,
        c.idletimer,
        c.swrst,
        c.businit,
        c.busconnect,
        false,
        c.lockreq,
    )
}

// ---- written

// The counts, which a jump over quiet ticks writes alone.
#[tactic(auto, unfolding(layout::specs::Layout::laid_out))]
pub(crate) fn counts_of(d: Device) -> [u8; 7]
    ensures { result ≡ laid_out counts d }
{
    let [scl_low, scl_high] = d.bus.lowscl.to_le_bytes();
    let [sda_low, sda_high] = d.bus.lowsda.to_le_bytes();
    [
        d.arb.reserve,
        d.bus.hold,
        scl_low,
        scl_high,
        sda_low,
        sda_high,
        d.bus.idle,
    ]
}

// The image of a device, by the table of crates/layout/specs/Layout.antt: a line for each byte of it, as it is printed.
#[tactic(auto, unfolding(layout::specs::Layout::laid_out, layout::specs::Layout::image_of))]
fn image_of(d: Device) -> [u8; IMAGE_LENGTH]
    requires { pulses d.arb.switch < 9 }
    ensures { result ≡ image_of d }
{
    let [reserve, hold, scl_low, scl_high, sda_low, sda_high, idle] = counts_of(d);
    [
        contr_number(d.side0.contr),
        d.side0.rt,
        d.side0.ints,
        d.side0.mask,
        d.side0.mail.low,
        d.side0.mail.high,
        u8::from(d.side0.mail.full),
        contr_number(d.side1.contr),
        d.side1.rt,
        d.side1.ints,
        d.side1.mask,
        d.side1.mail.low,
        d.side1.mail.high,
        u8::from(d.side1.mail.full),
        reserve,
        hold,
        scl_low,
        scl_high,
        sda_low,
        sda_high,
        idle,
        u8::from(d.bus.outscl),
        u8::from(d.bus.outsda),
        u8::from(d.bus.intin),
        u8::from(d.bus.drivescl),
        u8::from(d.bus.drivesda),
        u8::from(d.bus.busy),
        turn_number(d.arb.turn),
        last_number(d.arb.last),
        switch_number(d.arb.switch),
        u8::from(d.arb.initfail),
        kind_byte(d),
        port_number(d.side0.port),
        register_number(d.side0.pointer),
        u8::from(d.side0.auto),
        port_number(d.side1.port),
        register_number(d.side1.pointer),
        u8::from(d.side1.auto),
    ]
}

// The image of a device whose PULSEs are in range, written to a buffer of an image's length. A caller has both already: see docs/PROMISES.md.
pub fn write_image(d: Device, out: &mut [u8])
    requires { (pulses d.arb.switch < 9) × (length out.old ≡ image_length) }
    ensures { out.new ≡ image_of d }
{
    out.copy_from_slice(&image_of(d));
}

// ---- a fresh image

// The image of a device of this kind after power-up. Refused for a buffer of another length and then for another kind, and the buffer is left
// as it was.
pub fn fresh_image(kind: u8, image: &mut [u8]) -> Result<(), ImageRefusal>
    ensures { (number_of result ≡ fresh_number kind image.old) × (image.new ≡ fresh_after kind image.old) }
{
    if image.len() != IMAGE_LENGTH {
        return Err(ImageRefusal::Length);
    }
    if is_kind(kind) {
        write_image(fresh(kind_of(kind)), image);
        Ok(())
    } else {
        Err(ImageRefusal::Argument)
    }
}

// ---- a step

// The answer of a refused image or row: a number, since an answer is document 01's four bytes, whatever refused.
pub fn refused_by(number: u8) -> Answer
    ensures { result ≡ refused_by number }
{
    Answer {
        outcome: number,
        read: 0,
        owner: 0,
        lines: 0,
    }
}

fn step_good(image: &mut [u8], r: Raw) -> Answer
    requires { is_image image.old ≡ true }
    ensures { (result ≡ (step (device_in image.old) r).answer) × (image.new ≡ image_of (step (device_in image.old) r).device) }
{
    let s = step_device(read_image(image), r);
    write_image(s.device, image);
    s.answer
}

// One event on an image, whatever its kind.
#[tactic(auto, using(layout::proofs::Once::is_good, layout::proofs::Once::is_bad), unfolding(layout::specs::Images::image_answer, layout::specs::Images::image_after, layout::specs::Refusals::number_of))]
pub(crate) fn step_any(image: &mut [u8], r: Raw) -> Answer
    ensures { (result ≡ image_answer image.old r) × (image.new ≡ image_after image.old r) }
{
    match check_image(image) {
        Ok(()) => step_good(image, r),
        Err(refusal) => refused_by(u8::from(refusal)),
    }
}

// One event on an image: the answer, and the image is that of the new device. Refused by 9 for a buffer of another length and then by 16 for
// a field outside its range, with 00, 00, 00 after the number, and the buffer is left as it was.
//
// Each kind has a call of its own, so that a compiler with room makes of each what is left of the step for that kind (docs/SPEED.md, "Single
// steps"). For a microcontroller the calls are one.
pub fn step_image(image: &mut [u8], r: Raw) -> Answer
    ensures { (result ≡ image_answer image.old r) × (image.new ≡ image_after image.old r) }
{
    let what = r.kind;
    match what {
        0 => step_any(image, r),
        1 => step_any(image, r),
        2 => step_any(image, r),
        3 => step_any(image, r),
        4 => step_any(image, r),
        5 => step_any(image, r),
        6 => step_any(image, r),
        7 => step_any(image, r),
        8 => step_any(image, r),
        9 => step_any(image, r),
        _ => step_any(image, r),
    }
}
