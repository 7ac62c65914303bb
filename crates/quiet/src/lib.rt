// Quiet ticks: how many TICKs from a device on change nothing but counts, and the device after them. Both are true of every device value.
#![tactic(auto)]

ghost use Rattle.std.specs.Prelude.{◌-◌, ◌≡◌};
ghost use Rattle.quiet.specs.Counts.{risen, counted_bus, with_counts, after_ticks};
ghost use Rattle.quiet.specs.Quiet.{hold_left, scl_left, sda_left, idle_left, owner_left, turn_left, is_still, is_calm, counts_left, quiet_ticks};

use arbiter::{
    Arbitration, Bus, CUT_TICKS, Device, Master, SCL_HUNG_LIMIT, SDA_HUNG_LIMIT, Side, Turn,
};
use arbitration::claims::{no_claim, no_grant};
use bus::{is_idle, scl_high, sda_high};
use connection::switch_stays;
use fields::{idle_limit, side_of};

// Stands for no end in sight: no_end in specs/Quiet.
pub const NO_END: u16 = 65535;

// ---- what each count has left

pub fn hold_ticks(hold: u8) -> u16
    ensures { result ≡ hold_left hold }
{
    if hold == 0 {
        NO_END
    } else {
        u16::from(hold - 1)
    }
}

pub fn scl_ticks(high: bool, low: u16) -> u16
    ensures { result ≡ scl_left high low }
{
    if high {
        NO_END
    } else if low < CUT_TICKS {
        CUT_TICKS - 1 - low
    } else if low < SCL_HUNG_LIMIT {
        SCL_HUNG_LIMIT - 1 - low
    } else {
        NO_END
    }
}

pub fn sda_ticks(high: bool, low: u16) -> u16
    ensures { result ≡ sda_left high low }
{
    if high {
        NO_END
    } else if low < SDA_HUNG_LIMIT {
        SDA_HUNG_LIMIT - 1 - low
    } else {
        NO_END
    }
}

// An owner with RT 00h, by its idle timer.
pub fn idle_ticks(limit: u8, timer: bool, idle: u8) -> u16
    ensures { result ≡ idle_left limit timer idle }
{
    if !timer {
        NO_END
    } else if idle < limit {
        u16::from(limit - 1 - idle)
    } else {
        0
    }
}

// The master with this side owns. A reserve of 0 on an idle bus leaves no tick: the next one loses the grant.
pub fn owner_ticks(limit: u8, s: Side, reserve: u8, b: Bus) -> u16
    ensures { result ≡ owner_left limit s reserve b }
{
    if !is_idle(b) {
        NO_END
    } else if s.rt == 0 {
        idle_ticks(limit, s.contr.idletimer, b.idle)
    } else {
        u16::from(reserve.saturating_sub(1))
    }
}

fn turn_ticks(t: Turn, d: Device) -> u16
    ensures { result ≡ turn_left t d }
{
    let limit = idle_limit(d);
    match t {
        Turn::Nobody | Turn::Claims(_, _) => NO_END,
        Turn::Owns(m, _) => owner_ticks(limit, side_of(m, d), d.arb.reserve, d.bus),
    }
}

// ---- nothing else to settle

// Part 2 has nothing to settle: counts stand at 0 where they do not run.
pub fn is_still(b: Bus) -> bool
    ensures { result ≡ is_still b }
{
    (!scl_high(b) | (b.lowscl == 0))
        & (!sda_high(b) | (b.lowsda == 0))
        & (is_idle(b) | (b.idle == 0))
}

// Parts 5 to 7 have nothing to settle.
pub fn is_calm(t: Turn, d: Device) -> bool
    ensures { result ≡ is_calm t d }
{
    switch_stays(t, d) & no_grant(t, d) & no_claim(t, d)
}

// ---- how many

// Of a device that is known to be settled it is all that is asked.
#[tactic(auto, unfolding(crate::specs::Quiet::counts_left))]
pub fn counts_left(d: Device) -> u16
    ensures { result ≡ counts_left d }
{
    let hold = hold_ticks(d.bus.hold);
    let turn = turn_ticks(d.arb.turn, d);
    let scl = scl_ticks(scl_high(d.bus), d.bus.lowscl);
    let sda = sda_ticks(sda_high(d.bus), d.bus.lowsda);
    hold.min(turn).min(scl.min(sda))
}

// So many TICKs from here on change nothing but counts: each is answered 0, 0 and the last two bytes of now.
#[tactic(auto, unfolding(crate::specs::Quiet::quiet_ticks))]
pub fn quiet_ticks(d: Device) -> u16
    ensures { result ≡ quiet_ticks d }
{
    if is_still(d.bus) & is_calm(d.arb.turn, d) {
        counts_left(d)
    } else {
        0
    }
}

// ---- the device after them

// A count that stops at 0.
fn fallen(j: u16, n: u8) -> u8
    ensures { result ≡ n - j }
{
    u16::from(n).saturating_sub(j) as u8
}

// A count that stops at its top. One of a byte goes by its wider type.
fn risen(top: u16, up: bool, j: u16, n: u16) -> u16
    ensures { result ≡ risen top up j n }
{
    if up & (n < top) {
        n.saturating_add(j).min(top)
    } else {
        n
    }
}

fn counted_bus(hold: u8, idle: u8, lowscl: u16, lowsda: u16, b: Bus) -> Bus
    ensures { result ≡ counted_bus hold idle lowscl lowsda b }
{
    Bus {
        hold,
        idle,
        lowscl,
        lowsda,
        ..b
    }
}

// The device with these counts.
#[tactic(auto, unfolding(crate::specs::Counts::with_counts))]
fn with_counts(reserve: u8, hold: u8, idle: u8, lowscl: u16, lowsda: u16, d: Device) -> Device
    ensures { result ≡ with_counts reserve hold idle lowscl lowsda d }
{
    Device {
        bus: counted_bus(hold, idle, lowscl, lowsda, d.bus),
        arb: Arbitration { reserve, ..d.arb },
        ..d
    }
}

// The device after j quiet ticks: its counts moved on, each stopping at its top or at 0.
#[tactic(auto, unfolding(crate::specs::Counts::after_ticks))]
pub fn after_ticks(j: u16, d: Device) -> Device
    ensures { result ≡ after_ticks j d }
{
    let idle = is_idle(d.bus);
    let scl = scl_high(d.bus);
    let sda = sda_high(d.bus);
    with_counts(
        fallen(j, d.arb.reserve),
        fallen(j, d.bus.hold),
        risen(u16::from(idle_limit(d)), idle, j, u16::from(d.bus.idle)) as u8,
        risen(SCL_HUNG_LIMIT, !scl, j, d.bus.lowscl),
        risen(SDA_HUNG_LIMIT, !sda, j, d.bus.lowsda),
        d,
    )
}
