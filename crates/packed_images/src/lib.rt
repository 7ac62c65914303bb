// A device as an image in a lent buffer, for Rust and C: what is answered packed in one number.
#![tactic(auto)]

ghost use Rattle.std.specs.Prelude.{◌≡◌};
ghost use Rattle.layout.specs.Refusals.{refusal_number};
ghost use Rattle.layout.specs.Images.{image_answer, image_after, fresh_number, fresh_after, shown};
ghost use Rattle.imaging.specs.Advancing.{image_told, image_advanced};
ghost use Rattle.packing.specs.Packed.{packed_answer};
ghost use Rattle.packed_images.specs.Packed.{packed_shown, packed_told};

use arbiter::Raw;
use image::read_register;
use imaging::advancing::advance_image;
use imaging::{fresh_image, step_image};
use layout::ImageRefusal;
use packing::packed_answer;

// A refusal as its number alone.
fn refused_packed(refusal: ImageRefusal) -> u32
    ensures { result ≡ refusal_number refusal }
{
    u32::from(u8::from(refusal))
}

// A fresh image of this kind of part.
#[tactic(auto, unfolding(layout::specs::Refusals::number_of))]
pub fn fresh_packed(kind: u8, image: &mut [u8]) -> u32
    ensures { (result ≡ fresh_number kind image.old) × (image.new ≡ fresh_after kind image.old) }
{
    match fresh_image(kind, image) {
        Ok(()) => 0,
        Err(refusal) => refused_packed(refusal),
    }
}

// One event on an image, by its four bytes.
pub fn step_packed(kind: u8, x: u8, y: u8, z: u8, image: &mut [u8]) -> u32
    ensures { (result ≡ packed_answer (image_answer image.old (record { kind = kind; x = x; y = y; z = z }))) × (image.new ≡ image_after image.old (record { kind = kind; x = x; y = y; z = z })) }
{
    packed_answer(step_image(image, Raw { kind, x, y, z }))
}

// So many ticks on an image, at once.
#[tactic(auto, unfolding(imaging::specs::Advancing::told_by))]
pub fn advance_packed(ticks: u32, image: &mut [u8]) -> u32
    ensures { (result ≡ packed_told (image_told ticks image.old)) × (image.new ≡ image_advanced ticks image.old) }
{
    match advance_image(image, ticks) {
        Ok(reported) => 256 * reported,
        Err(refusal) => refused_packed(refusal),
    }
}

// What a master reads of a register of an image, without an event.
#[tactic(auto, unfolding(layout::specs::Refusals::shown_of))]
pub fn read_packed(master: u8, register: u8, image: &[u8]) -> u32
    ensures { result ≡ packed_shown (shown master register image.now) }
{
    match read_register(master, register, image) {
        Ok(byte) => 256 * u32::from(byte),
        Err(refusal) => refused_packed(refusal),
    }
}
