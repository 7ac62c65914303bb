// What two samples after each other show of a bus, and the short ways: most samples of a capture change nothing, or add a bit to a byte.
ghost use Rattle.std.specs.Prelude.{◌≡◌, true, ◌<◌};
ghost use Rattle.arbiter.specs.declared.Master.TheVariants.{Zero, One};
ghost use Rattle.capture.specs.OneBus.{levels, rises, shifted};
ghost use Rattle.hearing.specs.Light.{is_still, is_marked, has_room, is_light, lightly, are_light, both_lightly};

use crate::ends::is_outside;
use arbiter::Master;
use capture::{Both, Levels, Listener};

// ---- two samples after each other

pub(crate) fn levels(m: Master, x: u8) -> Levels
    ensures { result ≡ levels m x }
{
    match m {
        Master::Zero => Levels {
            scl: x % 2 == 1,
            sda: x / 2 % 2 == 1,
        },
        Master::One => Levels {
            scl: x / 4 % 2 == 1,
            sda: x / 8 % 2 == 1,
        },
    }
}

#[tactic(auto, unfolding(crate::specs::Light::is_marked))]
fn is_marked(was: Levels, now: Levels) -> bool
    ensures { result ≡ is_marked was now }
{
    was.scl & now.scl & (was.sda != now.sda)
}

fn is_rise(was: Levels, now: Levels) -> bool
    ensures { result ≡ rises was now }
{
    !was.scl & now.scl
}

// ---- the short ways, for most samples of a capture

#[tactic(auto, unfolding(crate::specs::Light::is_still))]
pub(crate) fn is_still(before: u8, now: u8) -> bool
    ensures { result ≡ is_still before now }
{
    (before == now) | (!(now % 2 == 1) & !(now / 4 % 2 == 1))
}

#[tactic(auto, unfolding(crate::specs::Light::has_room))]
fn has_room(l: Listener) -> bool
    ensures { result ≡ has_room l }
{
    !is_outside(l.awaited) & (l.clocks < 8)
}

// By branches and not by one formula, so that a bus where SCL does not rise is not asked for its byte.
#[tactic(auto, unfolding(crate::specs::Light::is_light))]
pub(crate) fn is_light(was: Levels, now: Levels, l: Listener) -> bool
    ensures { result ≡ is_light was now l }
{
    if is_rise(was, now) {
        has_room(l)
    } else {
        !is_marked(was, now)
    }
}

#[tactic(auto, unfolding(crate::specs::Light::are_light))]
pub(crate) fn are_light(before: u8, now: u8, s: Both) -> bool
    ensures { result ≡ are_light before now s }
{
    is_light(
        levels(Master::Zero, before),
        levels(Master::Zero, now),
        s.bus0,
    ) && is_light(
        levels(Master::One, before),
        levels(Master::One, now),
        s.bus1,
    )
}

#[tactic(auto, unfolding(capture::specs::OneBus::shifted))]
fn on_bit(b: bool, l: Listener) -> Listener
    requires { l.clocks < 8 }
    ensures { result ≡ shifted b l }
{
    Listener {
        clocks: l.clocks + 1,
        value: l.value % 128 * 2 + u8::from(b),
        ..l
    }
}

#[tactic(auto, using(crate::proofs::Light::light_clocks), unfolding(crate::specs::Light::lightly))]
pub(crate) fn with_bit(was: Levels, now: Levels, l: Listener) -> Listener
    requires { is_light was now l ≡ true }
    ensures { result ≡ lightly was now l }
{
    if is_rise(was, now) {
        on_bit(now.sda, l)
    } else {
        l
    }
}

#[tactic(auto, using(crate::proofs::Light::light_0, crate::proofs::Light::light_1), unfolding(crate::specs::Light::both_lightly))]
pub(crate) fn with_bits(before: u8, now: u8, s: Both) -> Both
    requires { are_light before now s ≡ true }
    ensures { result ≡ both_lightly before now s }
{
    Both {
        bus0: with_bit(
            levels(Master::Zero, before),
            levels(Master::Zero, now),
            s.bus0,
        ),
        bus1: with_bit(
            levels(Master::One, before),
            levels(Master::One, now),
            s.bus1,
        ),
    }
}
