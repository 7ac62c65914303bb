// The fields of a device: what belongs to one of the two masters, the rules of its kind, what turn and switch show; and the numbers of masters
// and registers.
#![tactic(auto)]

ghost use Rattle.std.specs.Prelude.{◌≡◌};
ghost use Rattle.arbiter.specs.Rules.{limit_of, idle_limit, rolls};
ghost use Rattle.arbiter.specs.Words.{partner, side, device};
ghost use Rattle.arbiter.specs.State.{owns_turn, claims_turn, closed_for};
ghost use Rattle.arbiter.specs.Parts.{with_turn};
ghost use Rattle.arbiter.specs.Events.{master};
ghost use Rattle.arbiter.specs.Effects.{register_at};
ghost use Rattle.arbiter.specs.Registers.{register_number};
ghost use Rattle.fields.specs.Apart.{is_apart};

use arbiter::{
    Arbitration, Device, Kind, Master, PCA9641_IDLE_LIMIT, Register, Side, Switch,
    TPT29641_IDLE_LIMIT, Turn,
};

// ---- what belongs to one of the two masters

// m's side.
pub fn side_of(m: Master, d: Device) -> Side
    ensures { result ≡ side m d }
{
    match m {
        Master::Zero => d.side0,
        Master::One => d.side1,
    }
}

pub fn partner_of(m: Master) -> Master
    ensures { result ≡ partner m }
{
    match m {
        Master::Zero => Master::One,
        Master::One => Master::Zero,
    }
}

// m's side, and its partner's.
pub fn sides_of(m: Master, d: Device) -> (Side, Side)
    ensures { result ≡ (side m d, side (partner m) d) }
{
    match m {
        Master::Zero => (d.side0, d.side1),
        Master::One => (d.side1, d.side0),
    }
}

// The device with m's side and its partner's replaced.
pub fn with_sides(m: Master, own: Side, other: Side, d: Device) -> Device
    ensures { result ≡ device m own other d.bus d.arb d }
{
    match m {
        Master::Zero => Device {
            side0: own,
            side1: other,
            ..d
        },
        Master::One => Device {
            side0: other,
            side1: own,
            ..d
        },
    }
}

// ---- the turn replaced

pub fn with_turn(turn: Turn, a: Arbitration) -> Arbitration
    ensures { result ≡ with_turn turn a }
{
    Arbitration { turn, ..a }
}

// ---- the rules of a device's kind: a line for each kind of part, as `rules_of` of arbiter/specs has them

pub fn limit_of(k: Kind) -> u8
    ensures { result ≡ limit_of k }
{
    match k {
        Kind::Pca9641 => PCA9641_IDLE_LIMIT,
        Kind::Tpt29641 => TPT29641_IDLE_LIMIT,
    }
}

pub fn idle_limit(d: Device) -> u8
    ensures { result ≡ idle_limit d }
{
    limit_of(d.kind)
}

// The pointer of a WRITE rolls from 7 to 0.
pub fn rolls_over(d: Device) -> bool
    ensures { result ≡ rolls d }
{
    match d.kind {
        Kind::Pca9641 => false,
        Kind::Tpt29641 => true,
    }
}

// ---- what they show

// m is granted.
pub fn owns_turn(m: Master, t: Turn) -> bool
    ensures { result ≡ owns_turn m t }
{
    matches!(t, Turn::Owns(k, _) if k == m)
}

// m claims, and is not granted yet.
pub fn claims_turn(m: Master, t: Turn) -> bool
    ensures { result ≡ claims_turn m t }
{
    matches!(t, Turn::Claims(k, _) if k == m)
}

// m is connected: the switch is closed for it.
pub fn closed_for(m: Master, w: Switch) -> bool
    ensures { result ≡ closed_for m w }
{
    w == Switch::Closed(m)
}

// The switch is open, and no initialisation is under way.
pub fn is_apart(w: Switch) -> bool
    ensures { result ≡ is_apart w }
{
    w == Switch::Apart
}

// ---- by their numbers

// The master of an event's byte, which is 0 or 1. No TryFrom, here and at a register's number: `master` and `register_at` of arbiter/specs take every byte.
pub fn master_of(x: u8) -> Master
    ensures { result ≡ master x }
{
    if x == 0 { Master::Zero } else { Master::One }
}

pub fn register_number(r: Register) -> u8
    ensures { result ≡ register_number r }
{
    r as u8
}

// The register of a number from 0 to 7.
pub fn register_at(n: u8) -> Register
    ensures { result ≡ register_at n }
{
    match n {
        0 => Register::Id,
        1 => Register::Contr,
        2 => Register::Status,
        3 => Register::Rt,
        4 => Register::IntStatus,
        5 => Register::IntMask,
        6 => Register::MailLow,
        _ => Register::MailHigh,
    }
}
