// An advance of a device that is kept as an image: many ticks at once. Request #113.
//
// It goes on the image itself, and a tick that is taken is a step on the image, by the call that a caller has: so the step stands once in the code of a
// firmware. What a tick changed is seen in the bytes, and a jump over quiet ticks writes the counts alone.
ghost use Rattle.std.specs.Prelude.{◌≡◌, true, length};
ghost use Rattle.arbiter.specs.Steps.{step};
ghost use Rattle.layout.specs.Layout.{image_length, image_of, device_in};
ghost use Rattle.layout.specs.Images.{is_image};
ghost use Rattle.quiet.specs.Counts.{least, after_ticks};
ghost use Rattle.quiet.specs.Quiet.{quiet_ticks, tick, ticks};
ghost use Rattle.advance.specs.Changes.{changes};
ghost use Rattle.advance.specs.Advance.{changing};
ghost use Rattle.imaging.specs.Advancing.{told_by, image_told, image_advanced};

use crate::{counts_of, step_any};
use advance::changes::same_shown;
use arbiter::Raw;
use image::{check_image, read_image};
use layout::{IMAGE_LENGTH, ImageRefusal};
use quiet::{after_ticks, quiet_ticks};

// The counts stand from 14 on, and 21 is the first place after them: crates/layout/specs/Layout.antt.
const COUNTS: usize = 14;

const COUNTS_END: usize = 21;

// ---- quiet ticks

// So many of the ticks that are left are quiet.
fn quiet_in(image: &[u8], left: u16) -> u16
    ensures { result ≡ least (quiet_ticks (device_in image.now)) left }
{
    quiet_ticks(read_image(image)).min(left)
}

// The counts moved on by j ticks, and the other bytes as they were.
fn jump(image: &mut [u8], j: u16)
    requires { (is_image image.old ≡ true) × (length image.old ≡ image_length) }
    ensures { image.new ≡ image_of (after_ticks j (device_in image.old)) }
{
    let bytes = counts_of(after_ticks(j, read_image(image)));
    image[COUNTS..COUNTS_END].copy_from_slice(&bytes);
}

// ---- a tick that is taken and compared

// Anything but counts differs between two images: a byte beside the counts, a level or BUS_HUNG.
fn is_changed_in(before: &[u8], after: &[u8]) -> bool
    requires { (is_image before.now ≡ true) × (is_image after.now ≡ true) × (length before.now ≡ image_length) × (length after.now ≡ image_length) }
    ensures { result ≡ changes (device_in before.now) (device_in after.now) }
{
    let first = before[..COUNTS] == after[..COUNTS];
    let rest = before[COUNTS_END..] == after[COUNTS_END..];
    let shown = same_shown(read_image(before).bus, read_image(after).bus);
    !(first & rest & shown)
}

// One tick, and whether it changed anything but counts.
fn tick_on(image: &mut [u8]) -> bool
    requires { (is_image image.old ≡ true) × (length image.old ≡ image_length) }
    ensures { (result ≡ changes (device_in image.old) (step (device_in image.old) tick).device) × (image.new ≡ image_of (step (device_in image.old) tick).device) }
{
    let mut before = [0; IMAGE_LENGTH];
    before.copy_from_slice(image);
    step_any(
        image,
        Raw {
            kind: 6,
            x: 0,
            y: 0,
            z: 0,
        },
    );
    is_changed_in(&before, image)
}

// ---- all of them

// So many ticks: how many of them changed anything but counts. A turn takes one tick or many, so no iterator gives the turns.
fn leap(image: &mut [u8], n: u16) -> u32
    requires { is_image image.old ≡ true }
    ensures { (result ≡ changing n (device_in image.old)) × (image.new ≡ image_of (ticks n (device_in image.old))) }
{
    let mut left = n;
    let mut reported: u32 = 0;
    while 0 < left {
        let j = quiet_in(image, left);
        if j == 0 {
            let one = u32::from(tick_on(image));
            reported += one;
            left -= 1;
        } else {
            jump(image, j);
            left -= j;
        }
    }
    reported
}

// So many ticks on an image: how many of them changed anything but counts, and the image is that of the device after them. Refused as an image is,
// and then past 65,535 ticks, and the buffer is left as it was.
#[tactic(auto, using(layout::proofs::Once::is_bad), unfolding(crate::specs::Advancing::image_told, crate::specs::Advancing::image_advanced, crate::specs::Advancing::told_by, layout::specs::Refusals::number_of))]
pub fn advance_image(image: &mut [u8], ticks: u32) -> Result<u32, ImageRefusal>
    ensures { (told_by result ≡ image_told ticks image.old) × (image.new ≡ image_advanced ticks image.old) }
{
    check_image(image)?;
    let Ok(n) = u16::try_from(ticks) else {
        return Err(ImageRefusal::Argument);
    };
    Ok(leap(image, n))
}
