// Part 7 of a step: the switch, and the initialisation before it closes; and when it has nothing to do.
#![tactic(auto)]

ghost use Rattle.std.specs.Prelude.{◌≡◌};
ghost use Rattle.arbiter.specs.Parts.{with_contr};
ghost use Rattle.arbiter.specs.State.{is_initialising};
ghost use Rattle.arbiter.specs.Order.{connect};
ghost use Rattle.connection.specs.Quiet.{linked, switch_stays};
ghost use Rattle.connection.specs.Links.{still, joining, clocking, linking, link_of, contr_ended, arb_linked};

use arbiter::{Arbitration, Clock, Control, Device, Master, Side, Switch, Turn};
use fields::{is_apart, owns_turn, side_of};

// An initialisation runs.
pub fn initialises(w: Switch) -> bool
    ensures { result ≡ is_initialising w }
{
    matches!(w, Switch::Initialising(_, _))
}

// What becomes of the switch: an initialisation starts, ends, or ends in failure.
#[derive(Clone, Copy)]
pub struct Link {
    pub switch: Switch,
    pub starts: bool,
    pub ends: bool,
    pub fails: bool,
}

fn still_at(w: Switch) -> Link
    ensures { result ≡ still w }
{
    Link {
        switch: w,
        starts: false,
        ends: false,
        fails: false,
    }
}

// Grant and BUS_CONNECT have become both true of m.
fn joining_by(m: Master, businit: bool) -> Link
    ensures { result ≡ joining m businit }
{
    if businit {
        Link {
            switch: Switch::Initialising(m, 0),
            starts: true,
            ends: false,
            fails: false,
        }
    } else {
        still_at(Switch::Closed(m))
    }
}

// An initialisation of m after n PULSEs of 0 goes on.
fn clocking_by(c: Clock, m: Master, n: u8, w: Switch) -> Link
    ensures { result ≡ clocking c m n w }
{
    match c {
        Clock::NoClock => still_at(w),
        Clock::ClockHigh => Link {
            switch: Switch::Closed(m),
            starts: false,
            ends: true,
            fails: false,
        },
        Clock::ClockLow => if n < 8 {
            still_at(Switch::Initialising(m, n + 1))
        } else {
            Link {
                switch: Switch::Apart,
                starts: false,
                ends: true,
                fails: true,
            }
        },
    }
}

// Grant and BUS_CONNECT are both true of m, and the switch was w.
#[tactic(auto, unfolding(crate::specs::Links::linking))]
fn linking_by(c: Clock, m: Master, businit: bool, w: Switch) -> Link
    ensures { result ≡ linking c m businit w }
{
    match w {
        Switch::Apart => joining_by(m, businit),
        Switch::Initialising(k, n) => if m == k {
            clocking_by(c, m, n, w)
        } else {
            joining_by(m, businit)
        },
        Switch::Closed(k) => if m == k {
            still_at(w)
        } else {
            joining_by(m, businit)
        },
    }
}

#[tactic(auto, unfolding(crate::specs::Links::link_of))]
fn link_of(c: Clock, t: Turn, c0: Control, c1: Control, w: Switch) -> Link
    ensures { result ≡ link_of c t c0 c1 w }
{
    match t {
        Turn::Nobody | Turn::Claims(_, _) => still_at(Switch::Apart),
        Turn::Owns(m, _) => {
            let contr = match m {
                Master::Zero => c0,
                Master::One => c1,
            };
            if contr.busconnect {
                linking_by(c, m, contr.businit, w)
            } else {
                still_at(Switch::Apart)
            }
        }
    }
}

fn ended_contr(ends: bool, fails: bool, c: Control) -> Control
    ensures { result ≡ contr_ended ends fails c }
{
    Control {
        businit: !ends & c.businit,
        busconnect: !fails & c.busconnect,
        ..c
    }
}

// BUS_INIT and BUS_CONNECT cleared, each if it is.
fn ended_side(ends: bool, fails: bool, s: Side) -> Side
    ensures { result ≡ with_contr (contr_ended ends fails s.contr) s }
{
    Side {
        contr: ended_contr(ends, fails, s.contr),
        ..s
    }
}

fn linked_arb(l: Link, a: Arbitration) -> Arbitration
    ensures { result ≡ arb_linked l a }
{
    let switch = l.switch;
    Arbitration {
        initfail: !l.starts & (l.fails | a.initfail),
        switch,
        ..a
    }
}

#[tactic(auto, using(crate::proofs::Laws::connect_law), unfolding(arbiter::specs::Order::connect))]
pub fn connect_of(c: Clock, d: Device) -> Device
    ensures { result ≡ connect c d }
{
    let owns0 = owns_turn(Master::Zero, d.arb.turn);
    let owns1 = owns_turn(Master::One, d.arb.turn);
    let l = link_of(c, d.arb.turn, d.side0.contr, d.side1.contr, d.arb.switch);
    Device {
        side0: ended_side(owns0 & l.ends, owns0 & l.fails, d.side0),
        side1: ended_side(owns1 & l.ends, owns1 & l.fails, d.side1),
        arb: linked_arb(l, d.arb),
        ..d
    }
}

// ---- when part 7 has nothing to do

// The switch is as m's grant and its BUS_CONNECT have it.
fn is_linked(m: Master, busconnect: bool, w: Switch) -> bool
    ensures { result ≡ linked m busconnect w }
{
    match w {
        Switch::Apart => !busconnect,
        Switch::Initialising(k, _) | Switch::Closed(k) => busconnect & (k == m),
    }
}

// Part 7 has nothing to do, if the event is no clock: the switch is as the turn and BUS_CONNECT have it.
pub fn switch_stays(t: Turn, d: Device) -> bool
    ensures { result ≡ switch_stays t d }
{
    match t {
        Turn::Nobody | Turn::Claims(_, _) => is_apart(d.arb.switch),
        Turn::Owns(m, _) => is_linked(m, side_of(m, d).contr.busconnect, d.arb.switch),
    }
}
