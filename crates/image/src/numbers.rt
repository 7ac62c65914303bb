// What the numbers in an image stand for: a port, the last owner, the turn, the switch, CONTR. Functions and no `From<u8>`: the types are of `arbiter`,
// and the numbers are an image's alone.
ghost use Rattle.std.specs.Prelude.{◌≡◌};
ghost use Rattle.arbiter.specs.Registers.{control_of};
ghost use Rattle.layout.specs.Numbers.{port_of, last_of, turn_of, switch_of};

use arbiter::{Control, Ground, Master, Port, Switch, Turn};

pub(crate) fn port_numbered(v: u8) -> Port
    ensures { result ≡ port_of v }
{
    match v {
        0 => Port::Rest,
        1 => Port::Open,
        _ => Port::Writing,
    }
}

pub(crate) fn last_numbered(v: u8) -> Option<Master>
    ensures { result ≡ last_of v }
{
    match v {
        0 => None,
        1 => Some(Master::Zero),
        _ => Some(Master::One),
    }
}

pub(crate) fn turn_numbered(v: u8) -> Turn
    ensures { result ≡ turn_of v }
{
    match v {
        0 => Turn::Nobody,
        1 => Turn::Claims(Master::Zero, Ground::Sole),
        2 => Turn::Claims(Master::Zero, Ground::Priority),
        3 => Turn::Claims(Master::Zero, Ground::LastGranted),
        4 => Turn::Claims(Master::One, Ground::Sole),
        5 => Turn::Claims(Master::One, Ground::Priority),
        6 => Turn::Claims(Master::One, Ground::LastGranted),
        7 => Turn::Owns(Master::Zero, Ground::Sole),
        8 => Turn::Owns(Master::Zero, Ground::Priority),
        9 => Turn::Owns(Master::Zero, Ground::LastGranted),
        10 => Turn::Owns(Master::One, Ground::Sole),
        11 => Turn::Owns(Master::One, Ground::Priority),
        _ => Turn::Owns(Master::One, Ground::LastGranted),
    }
}

pub(crate) fn switch_numbered(v: u8) -> Switch
    ensures { result ≡ switch_of v }
{
    match v {
        0 => Switch::Apart,
        1 => Switch::Closed(Master::Zero),
        2 => Switch::Closed(Master::One),
        3..=11 => Switch::Initialising(Master::Zero, v - 3),
        _ => Switch::Initialising(Master::One, v - 12),
    }
}

pub(crate) fn control_of(v: u8) -> Control
    ensures { result ≡ control_of v }
{
    Control {
        priority: v / 128 % 2 == 1,
        smbusdis: v / 64 % 2 == 1,
        idletimer: v / 32 % 2 == 1,
        swrst: v / 16 % 2 == 1,
        businit: v / 8 % 2 == 1,
        busconnect: v / 4 % 2 == 1,
        lockreq: v % 2 == 1,
    }
}
