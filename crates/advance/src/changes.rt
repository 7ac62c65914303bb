// Two devices compared in everything but counts, and in what the counts show.
ghost use Rattle.std.specs.Prelude.{◌≡◌};
ghost use Rattle.advance.specs.Changes.{agree, same_port, same_register, same_turn, same_last, same_switch, same_control, same_mail, same_side, same_lines, same_arb, same_kind, same_but_counts, same_shown, changes};

use arbiter::{
    Arbitration, Bus, Control, Device, Kind, Mailbox, Master, Port, Register, Side, Switch, Turn,
};
use bus::{bus_hung, scl_high, sda_high};

// ---- field by field

// The flags are compared one by one here and below, and so is a side: the derive's `==` over seven flags at once finds no proof.
fn agrees(x: bool, y: bool) -> bool
    ensures { result ≡ agree x y }
{
    x == y
}

fn same_control(c: Control, e: Control) -> bool
    ensures { result ≡ same_control c e }
{
    agrees(c.priority, e.priority)
        & agrees(c.smbusdis, e.smbusdis)
        & agrees(c.idletimer, e.idletimer)
        & agrees(c.swrst, e.swrst)
        & agrees(c.businit, e.businit)
        & agrees(c.busconnect, e.busconnect)
        & agrees(c.lockreq, e.lockreq)
}

fn same_mail(m: Mailbox, n: Mailbox) -> bool
    ensures { result ≡ same_mail m n }
{
    m == n
}

fn same_port(p: Port, q: Port) -> bool
    ensures { result ≡ same_port p q }
{
    p == q
}

fn same_register(r: Register, s: Register) -> bool
    ensures { result ≡ same_register r s }
{
    (r as u8) == (s as u8)
}

fn same_side(s: Side, t: Side) -> bool
    ensures { result ≡ same_side s t }
{
    same_register(s.pointer, t.pointer)
        & (s.rt == t.rt)
        & same_control(s.contr, t.contr)
        & (s.ints == t.ints)
        & same_mail(s.mail, t.mail)
        & agrees(s.auto, t.auto)
        & same_port(s.port, t.port)
        & (s.mask == t.mask)
}

fn same_turn(t: Turn, u: Turn) -> bool
    ensures { result ≡ same_turn t u }
{
    t == u
}

fn same_last(l: Option<Master>, n: Option<Master>) -> bool
    ensures { result ≡ same_last l n }
{
    l == n
}

fn same_switch(v: Switch, w: Switch) -> bool
    ensures { result ≡ same_switch v w }
{
    v == w
}

fn same_kind(k: Kind, l: Kind) -> bool
    ensures { result ≡ same_kind k l }
{
    k == l
}

// All of the bus but its counts.
fn same_lines(b: Bus, c: Bus) -> bool
    ensures { result ≡ same_lines b c }
{
    agrees(b.outscl, c.outscl)
        & agrees(b.outsda, c.outsda)
        & agrees(b.intin, c.intin)
        & agrees(b.drivescl, c.drivescl)
        & agrees(b.drivesda, c.drivesda)
        & agrees(b.busy, c.busy)
}

// All of the arbitration but the reserve count.
fn same_arb(a: Arbitration, c: Arbitration) -> bool
    ensures { result ≡ same_arb a c }
{
    same_last(a.last, c.last)
        & agrees(a.initfail, c.initfail)
        & same_switch(a.switch, c.switch)
        & same_turn(a.turn, c.turn)
}

#[tactic(auto, unfolding(crate::specs::Changes::same_but_counts))]
fn same_but_counts(d: Device, e: Device) -> bool
    ensures { result ≡ same_but_counts d e }
{
    same_kind(d.kind, e.kind)
        & same_side(d.side0, e.side0)
        & same_side(d.side1, e.side1)
        & same_lines(d.bus, e.bus)
        & same_arb(d.arb, e.arb)
}

// The levels and BUS_HUNG, which the lines and the counts show.
#[tactic(auto, unfolding(crate::specs::Changes::same_shown))]
pub fn same_shown(b: Bus, c: Bus) -> bool
    ensures { result ≡ same_shown b c }
{
    agrees(scl_high(b), scl_high(c))
        & agrees(sda_high(b), sda_high(c))
        & agrees(bus_hung(b), bus_hung(c))
}

// Anything but counts differs: a field, a level or BUS_HUNG.
pub fn is_changed(before: Device, after: Device) -> bool
    ensures { result ≡ changes before after }
{
    !(same_but_counts(before, after) & same_shown(before.bus, after.bus))
}
