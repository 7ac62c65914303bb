// The downstream bus: what it shows, one tick of its counts, its levels after an event, and its drives.
#![tactic(auto)]

ghost use Rattle.std.specs.Prelude.{◌≡◌, false, if◌then◌else◌};
ghost use Rattle.arbiter.specs.Parts.{with_idle};
ghost use Rattle.arbiter.specs.State.{scl_high, sda_high, is_idle, bus_hung};
ghost use Rattle.arbiter.specs.Registers.{released};
ghost use Rattle.arbiter.specs.Effects.{outside, ticked_bus};
ghost use Rattle.arbiter.specs.Order.{busy_after, scl_changed, settled_bus};

use arbiter::{Bus, SCL_HUNG_LIMIT, SDA_HUNG_LIMIT};
use bits::{counted, pick};

pub fn scl_high(b: Bus) -> bool
    ensures { result ≡ scl_high b }
{
    b.outscl & b.drivescl & (b.hold == 0)
}

pub fn sda_high(b: Bus) -> bool
    ensures { result ≡ sda_high b }
{
    b.outsda & b.drivesda
}

pub fn is_idle(b: Bus) -> bool
    ensures { result ≡ is_idle b }
{
    !b.busy & scl_high(b) & sda_high(b)
}

pub fn bus_hung(b: Bus) -> bool
    ensures { result ≡ bus_hung b }
{
    (b.lowscl == SCL_HUNG_LIMIT) | (b.lowsda == SDA_HUNG_LIMIT)
}

// New outside levels.
pub fn outside_of(scl: bool, sda: bool, intin: bool, b: Bus) -> Bus
    ensures { result ≡ outside scl sda intin b }
{
    Bus {
        outscl: scl,
        outsda: sda,
        intin,
        ..b
    }
}

// A tick of the hold and of the counts, by the levels before it; the idle count stops at this limit.
#[tactic(auto, using(crate::proofs::Bytes::counted_byte))]
pub fn ticked_bus(limit: u8, b: Bus) -> Bus
    ensures { result ≡ ticked_bus limit b }
{
    let scl = scl_high(b);
    let sda = sda_high(b);
    let idle = is_idle(b);
    Bus {
        hold: b.hold.saturating_sub(1),
        idle: counted(u16::from(limit), idle, u16::from(b.idle)) as u8,
        lowscl: counted(SCL_HUNG_LIMIT, !scl, b.lowscl),
        lowsda: counted(SDA_HUNG_LIMIT, !sda, b.lowsda),
        ..b
    }
}

fn busy_after(before: Bus, b: Bus) -> bool
    ensures { result ≡ busy_after false before b }
{
    let scl = scl_high(before) & scl_high(b);
    let was = sda_high(before);
    let sda = sda_high(b);
    (b.busy | scl & was & !sda) & !(scl & !was & sda)
}

// Part 2: the levels after an event, with the bus as it was before it. A reset asks for no care: it clears busy by itself, and can only
// let SDA rise.
pub fn settled_bus(before: Bus, b: Bus) -> Bus
    ensures { result ≡ settled_bus (busy_after false before b) (scl_changed before b) b }
{
    let scl = scl_high(b);
    let sda = sda_high(b);
    let was = scl_high(before);
    let busy = busy_after(before, b);
    Bus {
        busy,
        idle: pick(!busy & scl & sda, b.idle, 0),
        lowscl: pick(scl, 0, b.lowscl),
        lowsda: pick(sda | (was & !scl | !was & scl), 0, b.lowsda),
        ..b
    }
}

// Both drives let go, if a grant has ended.
pub fn released_if(ended: bool, b: Bus) -> Bus
    ensures { result ≡ (if ended then released b else b) }
{
    Bus {
        drivescl: ended | b.drivescl,
        drivesda: ended | b.drivesda,
        ..b
    }
}

// The idle count, or 0.
pub fn idle_kept(kept: bool, b: Bus) -> Bus
    ensures { result ≡ with_idle (if kept then b.idle else 0) b }
{
    Bus {
        idle: pick(kept, b.idle, 0),
        ..b
    }
}
