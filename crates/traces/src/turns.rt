// The two events of a settled device that move the turn (request #114): the STOP that brings a claimant the grant, and the byte that claims while nobody
// has the turn.
ghost use Rattle.std.specs.Prelude.{◌≤◌, ◌≡◌};
ghost use Rattle.arbiter.specs.Events.{master};
ghost use Rattle.arbiter.specs.Parts.{with_turn};
ghost use Rattle.arbiter.specs.Steps.{master_number};
ghost use Rattle.arbiter.specs.declared.Ground.TheVariants.{Sole};
ghost use Rattle.arbiter.specs.declared.Turn.TheVariants.{Claims};
ghost use Rattle.light.specs.Turns.{side_granted, switch_granted, arb_granted, is_contr, is_nobody};
ghost use Rattle.traces.specs.Turns.{stop_grants, granted_bits, byte_claims};

use crate::raws::{fits_byte, fits_one};
use crate::sides::{is_granted_at_rest, is_resting, takes_bytes};
use arbiter::{Arbitration, Bus, Control, Ground, Master, Port, Raw, Register, Side, Switch, Turn};
use arbitration::claims::ground_in;
use bits::bit_0;
use fields::master_of;
use registers::raised_in;

// ---- the grant at a STOP

// The event is a STOP that brings its master, whose side is s, the grant.
pub(crate) fn stop_grants(r: Raw, b: Bus, a: Arbitration, s: Side) -> bool
    ensures { result ≡ stop_grants r b a s }
{
    (r.kind == 3) & fits_one(r) & !is_resting(s) & is_granted_at_rest(r.x, b, a)
}

// The new owner's side: its port is at rest, and it is told of its grant.
pub(crate) fn granted_side(s: Side) -> Side
    ensures { result ≡ side_granted s }
{
    Side {
        ints: raised_in(s.ints, 0x04, true),
        port: Port::Rest,
        ..s
    }
}

fn granted_switch(m: Master, c: Control) -> Switch
    ensures { result ≡ switch_granted m c }
{
    if c.busconnect {
        if c.businit {
            Switch::Initialising(m, 0)
        } else {
            Switch::Closed(m)
        }
    } else {
        Switch::Apart
    }
}

// The arbitration after the grant to master x, whose side is s.
pub(crate) fn granted_arb(x: u8, s: Side, a: Arbitration) -> Arbitration
    ensures { result ≡ arb_granted (master x) s a }
{
    let m = master_of(x);
    Arbitration {
        last: Some(m),
        initfail: !(s.contr.busconnect & s.contr.businit) & a.initfail,
        switch: granted_switch(m, s.contr),
        reserve: s.rt,
        turn: Turn::Owns(m, ground_in(a.turn)),
    }
}

fn number_at(x: u8) -> u8
    ensures { (result ≡ master_number (master x)) × (result ≤ 2) }
{
    if x == 0 { 1 } else { 2 }
}

// What the grant to master x with this CONTR adds to the owner byte: who owns, and the switch or its initialisation.
pub(crate) fn granted_bits(x: u8, c: Control) -> u8
    ensures { (result ≡ granted_bits x c) × (result ≤ 18) }
{
    let own = number_at(x);
    if c.busconnect {
        if c.businit { own + 16 } else { 5 * own }
    } else {
        own
    }
}

// ---- the claim by a byte

fn is_contr(r: Register) -> bool
    ensures { result ≡ is_contr r }
{
    r == Register::Contr
}

fn is_nobody(t: Turn) -> bool
    ensures { result ≡ is_nobody t }
{
    t == Turn::Nobody
}

// The event is a byte to CONTR that makes its master, whose side is s, the claimant.
pub(crate) fn byte_claims(r: Raw, a: Arbitration, s: Side) -> bool
    ensures { result ≡ byte_claims r a s }
{
    (r.kind == 1)
        & fits_byte(r)
        & takes_bytes(s)
        & is_contr(s.pointer)
        & bit_0(r.y)
        & is_nobody(a.turn)
}

// The arbitration with master x as the sole claimant.
pub(crate) fn claimed_arb(x: u8, a: Arbitration) -> Arbitration
    ensures { result ≡ with_turn (Claims (master x) Sole) a }
{
    Arbitration {
        turn: Turn::Claims(master_of(x), Ground::Sole),
        ..a
    }
}
