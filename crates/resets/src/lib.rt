// What a reset and power-up leave.
#![tactic(auto)]

ghost use Rattle.std.specs.Prelude.{◌≡◌};
ghost use Rattle.arbiter.specs.Words.{side};
ghost use Rattle.arbiter.specs.Effects.{fresh_side, fresh_arb, was_reset, hold_asked, power_up};
ghost use Rattle.resets.specs.Left.{bus_left};

use arbiter::{
    Arbitration, Bus, Control, Device, HOLD_TICKS, Kind, Mailbox, Master, Port, Register, Side,
    Switch, Turn,
};
use bits::worth_of;
use fields::side_of;

fn fresh_side() -> Side
    ensures { result ≡ fresh_side }
{
    Side {
        pointer: Register::Id,
        rt: 0,
        contr: Control {
            priority: false,
            smbusdis: false,
            idletimer: false,
            swrst: false,
            businit: false,
            busconnect: false,
            lockreq: false,
        },
        ints: 0,
        mail: Mailbox {
            low: 0,
            high: 0,
            full: false,
        },
        auto: false,
        port: Port::Rest,
        mask: 0x7F,
    }
}

fn fresh_arb() -> Arbitration
    ensures { result ≡ fresh_arb }
{
    Arbitration {
        last: None,
        initfail: false,
        switch: Switch::Apart,
        reserve: 0,
        turn: Turn::Nobody,
    }
}

// The bus with these outside levels, SCL held for so many ticks.
fn fresh_bus(scl: bool, sda: bool, intin: bool, hold: u8) -> Bus
    ensures { result ≡ bus_left scl sda intin hold }
{
    Bus {
        outscl: scl,
        outsda: sda,
        intin,
        drivescl: true,
        drivesda: true,
        busy: false,
        hold,
        idle: 0,
        lowscl: 0,
        lowsda: 0,
    }
}

// A reset keeps the outside levels and the kind of part alone, and SCL may be held for so many ticks.
#[tactic(auto, unfolding(arbiter::specs::Effects::was_reset))]
pub fn reset_device(hold: u8, d: Device) -> Device
    ensures { result ≡ was_reset hold d }
{
    Device {
        side0: fresh_side(),
        side1: fresh_side(),
        bus: fresh_bus(d.bus.outscl, d.bus.outsda, d.bus.intin, hold),
        arb: fresh_arb(),
        ..d
    }
}

fn swrst_of(m: Master, d: Device) -> bool
    ensures { result ≡ (side m d).contr.swrst }
{
    side_of(m, d).contr.swrst
}

// After a soft reset by m, SCL is held if m had SMBUS_SWRST set.
pub fn soft_reset(m: Master, d: Device) -> Device
    ensures { result ≡ was_reset (hold_asked (side m d)) d }
{
    reset_device(worth_of(HOLD_TICKS, swrst_of(m, d)), d)
}

// Power-up of a part of this kind is a reset with all outside levels high.
pub fn fresh_device(kind: Kind) -> Device
    ensures { result ≡ power_up kind }
{
    Device {
        kind,
        side0: fresh_side(),
        side1: fresh_side(),
        bus: fresh_bus(true, true, true, 0),
        arb: fresh_arb(),
    }
}
