// Parts 3 and 4 of a step: the losses, and the cut after 35 ticks of low SCL; and when each has nothing to do.
ghost use Rattle.std.specs.Prelude.{◌≡◌, false, if◌then◌else◌};
ghost use Rattle.arbiter.specs.Registers.{disconnected};
ghost use Rattle.arbiter.specs.Order.{runs_out, loser, losses, cut};
ghost use Rattle.arbitration.specs.Cleared.{contr_unless};
ghost use Rattle.arbitration.specs.Quiet.{no_loss, is_cut, no_cut};

use arbiter::{Bus, CUT_TICKS, Control, Device, Master, Side, Turn};
use bits::pick;
use bus::{is_idle, released_if};
use fields::{idle_limit, owns_turn, side_of, with_turn};
use registers::raised_in;

// ---- 3. losses

// The grant of the master with this side runs out, the idle timer's limit being this one.
fn runs_out(limit: u8, s: Side, reserve: u8, b: Bus) -> bool
    ensures { result ≡ runs_out limit s reserve b }
{
    if s.rt == 0 {
        s.contr.idletimer & (b.idle == limit)
    } else {
        (reserve == 0) & is_idle(b)
    }
}

// BUS_CONNECT cleared by the first test, LOCK_REQ by the second.
fn contr_unless(cut: bool, ended: bool, c: Control) -> Control
    ensures { result ≡ contr_unless cut ended c }
{
    Control {
        busconnect: !cut & c.busconnect,
        lockreq: !ended & c.lockreq,
        ..c
    }
}

// A side whose grant is lost, if it is.
#[tactic(auto, using(crate::proofs::Laws::lost_side))]
fn lost_if(on: bool, s: Side) -> Side
    ensures { result ≡ (if on then disconnected (loser s) else s) }
{
    Side {
        contr: contr_unless(on, on, s.contr),
        ints: raised_in(s.ints, 0x02, on),
        ..s
    }
}

#[tactic(auto, using(crate::proofs::Laws::losses_law), unfolding(arbiter::specs::Order::losses))]
pub fn losses_of(d: Device) -> Device
    ensures { result ≡ losses d }
{
    let limit = idle_limit(d);
    let lost0 = owns_turn(Master::Zero, d.arb.turn)
        & runs_out(limit, d.side0, d.arb.reserve, d.bus);
    let lost1 = owns_turn(Master::One, d.arb.turn) & runs_out(limit, d.side1, d.arb.reserve, d.bus);
    let turn = pick(lost0 | lost1, Turn::Nobody, d.arb.turn);
    Device {
        side0: lost_if(lost0, d.side0),
        side1: lost_if(lost1, d.side1),
        bus: released_if(lost0 | lost1, d.bus),
        arb: with_turn(turn, d.arb),
        ..d
    }
}

// Part 3 has nothing to do: there is no owner, or its grant does not run out.
pub fn no_loss(t: Turn, d: Device) -> bool
    ensures { result ≡ no_loss t d }
{
    let limit = idle_limit(d);
    match t {
        Turn::Nobody | Turn::Claims(_, _) => true,
        Turn::Owns(m, _) => !runs_out(limit, side_of(m, d), d.arb.reserve, d.bus),
    }
}

// ---- 4. the cut

// A side whose BUS_CONNECT is cleared, if it is.
fn cut_if(on: bool, s: Side) -> Side
    ensures { result ≡ (if on then disconnected s else s) }
{
    Side {
        contr: contr_unless(on, false, s.contr),
        ..s
    }
}

// This side is cut off, if it is the owner's.
fn is_cut(tick: bool, s: Side, b: Bus) -> bool
    ensures { result ≡ is_cut tick s b }
{
    tick & (b.lowscl == CUT_TICKS) & s.contr.smbusdis
}

#[tactic(auto, using(crate::proofs::Laws::cut_law), unfolding(arbiter::specs::Order::cut))]
pub fn cut_at(tick: bool, d: Device) -> Device
    ensures { result ≡ cut tick d }
{
    let cut0 = owns_turn(Master::Zero, d.arb.turn) & is_cut(tick, d.side0, d.bus);
    let cut1 = owns_turn(Master::One, d.arb.turn) & is_cut(tick, d.side1, d.bus);
    Device {
        side0: cut_if(cut0, d.side0),
        side1: cut_if(cut1, d.side1),
        ..d
    }
}

// Part 4 has nothing to do: there is no owner, or it is not cut off.
pub fn no_cut(tick: bool, t: Turn, d: Device) -> bool
    ensures { result ≡ no_cut tick t d }
{
    match t {
        Turn::Nobody | Turn::Claims(_, _) => true,
        Turn::Owns(m, _) => !is_cut(tick, side_of(m, d), d.bus),
    }
}
