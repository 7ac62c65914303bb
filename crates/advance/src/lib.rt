// An advance by many ticks at once (request #113): quiet ticks are jumped over, and the others are taken one by one and compared.
#![tactic(auto)]

ghost use Rattle.std.specs.Prelude.{◌+◌, ◌≤◌, ◌<◌, ◌≡◌};
ghost use Rattle.quiet.specs.Quiet.{tick, ticks};
ghost use Rattle.arbiter.specs.Steps.{step};
ghost use Rattle.advance.specs.Changes.{changes};
ghost use Rattle.advance.specs.Advance.{changing, most_ticks, advanced_with, advanced, moved_told, refused_number, told, way_with, tick_on, jump_on, onward};

use arbiter::{Device, Raw};
use changes::is_changed;
use quiet::{after_ticks, quiet_ticks};
use step::step_device;

pub mod changes;

// An advance goes so many ticks at most: most_ticks in specs/Advance.
pub const MOST_TICKS: u32 = 65535;

// What an advance leaves: the device after it, and how many of its ticks changed anything but counts.
#[derive(Clone, Copy)]
pub struct Moved {
    pub device: Device,
    pub reported: u32,
}

// On the way: the device, the ticks left to take, and how many so far changed anything but counts.
#[derive(Clone, Copy)]
pub struct Way {
    pub device: Device,
    pub left: u16,
    pub reported: u32,
}

fn way_with(device: Device, left: u16, reported: u32) -> Way
    ensures { result ≡ way_with device left reported }
{
    Way {
        device,
        left,
        reported,
    }
}

// ---- on the way

fn ticked_once(d: Device) -> Device
    ensures { result ≡ (step d tick).device }
{
    step_device(
        d,
        Raw {
            kind: 6,
            x: 0,
            y: 0,
            z: 0,
        },
    )
    .device
}

// One tick, taken and compared.
fn tick_on(w: Way) -> Way
    requires { (0 < w.left) × (w.reported + w.left ≤ most_ticks) }
    ensures { result ≡ tick_on w }
{
    let next = ticked_once(w.device);
    let one = u32::from(is_changed(w.device, next));
    way_with(next, w.left - 1, w.reported + one)
}

// Quiet ticks, all at once.
fn jump_on(j: u16, w: Way) -> Way
    requires { j ≤ w.left }
    ensures { result ≡ jump_on j w }
{
    way_with(after_ticks(j, w.device), w.left - j, w.reported)
}

#[tactic(auto, unfolding(crate::specs::Advance::onward))]
fn go_on(w: Way) -> Way
    requires { (0 < w.left) × (w.reported + w.left ≤ most_ticks) }
    ensures { result ≡ onward w }
{
    let j = quiet_ticks(w.device).min(w.left);
    if j == 0 { tick_on(w) } else { jump_on(j, w) }
}

fn leap(from: Device, n: u16) -> Moved
    ensures { moved_told result ≡ advanced_with 0 (ticks n from) (changing n from) }
{
    let mut w = way_with(from, n, 0);
    // A turn takes one tick or many quiet ones, so no iterator gives the turns.
    while 0 < w.left {
        w = go_on(w);
    }
    Moved {
        device: w.device,
        reported: w.reported,
    }
}

// ---- the call

// Why an advance is refused: it would go more than 65,535 ticks.
#[derive(Clone, Copy, PartialEq, Eq)]
pub enum Refused {
    TooManyTicks,
}

// Document 02's number of a refusal.
impl From<Refused> for u8 {
    ghost from_gives = { λ r n. n ≡ refused_number r };

    fn from(r: Refused) -> u8 {
        match r {
            Refused::TooManyTicks => 3,
        }
    }
}

// The device after n ticks, and how many of them changed anything but counts: the same as by n TICK events, and as fast for many as for few.
// More than 65,535 are refused, which is number 3; the device stays.
pub fn advance(d: Device, n: u32) -> Result<Moved, Refused>
    ensures { told d result ≡ advanced n d }
{
    if MOST_TICKS < n {
        Err(Refused::TooManyTicks)
    } else {
        Ok(leap(d, n as u16))
    }
}
