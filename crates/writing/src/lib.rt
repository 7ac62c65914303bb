// What a written byte does, by the register that the pointer names: to the writer's side, to its partner's side, to the drives and to the
// turn; and so to the device, at a WRITE or a PAIR.
#![tactic(auto)]

ghost use Rattle.std.specs.Prelude.{◌≡◌, if◌then◌else◌};
ghost use Rattle.arbiter.specs.Registers.{own_written, mail_written, drives_written, turn_written};
ghost use Rattle.arbiter.specs.Events.{writable};
ghost use Rattle.arbiter.specs.Effects.{after_write, write_risen, written, paired};
ghost use Rattle.writing.specs.Written.{contr_written, ints_written, mail_after};

use arbiter::{Bus, Control, Device, Mailbox, Master, Register, Side, Turn};
use bits::{bit_0, pick};
use fields::{owns_turn, register_number, rolls_over, sides_of, with_sides, with_turn};
use registers::{after_read, raised_in};

// ---- the register

// A WRITE there is acknowledged.
pub fn writable_at(r: Register) -> bool
    ensures { result ≡ writable r }
{
    r != Register::Id
}

// The pointer one further: as after a READ, but at 7 it stays unless it rolls.
fn after_write(rolls: bool, r: Register) -> Register
    ensures { result ≡ after_write rolls r }
{
    pick(
        !rolls & (register_number(r) == 7),
        Register::MailHigh,
        after_read(r),
    )
}

// The pointer after a WRITE.
fn risen(rolls: bool, auto: bool, r: Register) -> Register
    ensures { result ≡ (if auto then after_write rolls r else r) }
{
    if auto { after_write(rolls, r) } else { r }
}

// ---- the writer's side

// CONTR by a written byte: the end of a grant takes BUS_CONNECT with it.
fn control_by(granted: bool, v: u8) -> Control
    ensures { result ≡ contr_written granted v }
{
    let request = bit_0(v);
    Control {
        priority: v / 128 % 2 == 1,
        smbusdis: v / 64 % 2 == 1,
        idletimer: v / 32 % 2 == 1,
        swrst: v / 16 % 2 == 1,
        businit: v / 8 % 2 == 1,
        busconnect: !(granted & !request) & (v / 4 % 2 == 1),
        lockreq: request,
    }
}

fn contr_after(here: bool, granted: bool, v: u8, c: Control) -> Control
    ensures { result ≡ (if here then contr_written granted v else c) }
{
    if here { control_by(granted, v) } else { c }
}

// INT_STATUS by a byte written to it, or to STATUS.
fn ints_after(clears: bool, tests: bool, v: u8, ints: u8) -> u8
    ensures { result ≡ ints_written clears tests v ints }
{
    let set = raised_in(ints, 0x08, tests & (v / 32 % 2 == 1));
    pick(clears, set & (0x3F - v % 64), set)
}

// The writer's own side after its byte, with the pointer risen.
#[tactic(auto, using(crate::proofs::Laws::writer_law))]
pub fn writer_side(rolls: bool, granted: bool, v: u8, s: Side) -> Side
    ensures { result ≡ write_risen rolls (own_written granted s.pointer v s) }
{
    let n = register_number(s.pointer);
    Side {
        pointer: risen(rolls, s.auto, s.pointer),
        rt: pick((n == 3) & !granted, v, s.rt),
        contr: contr_after(n == 1, granted, v, s.contr),
        ints: ints_after(n == 4, n == 2, v, s.ints),
        mask: pick(n == 5, v % 128, s.mask),
        ..s
    }
}

// ---- the partner's side, the drives and the turn

fn mail_after(n: u8, v: u8, m: Mailbox) -> Mailbox
    ensures { result ≡ mail_after n v m }
{
    Mailbox {
        low: pick((n == 6) & !m.full, v, m.low),
        high: pick((n == 7) & !m.full, v, m.high),
        full: (n == 7) | m.full,
    }
}

// The partner's side after a byte that was written at the register r.
#[tactic(auto, using(crate::proofs::Laws::mail_law))]
pub fn mail_written(r: Register, v: u8, s: Side) -> Side
    ensures { result ≡ mail_written r v s }
{
    let n = register_number(r);
    Side {
        ints: raised_in(s.ints, 0x20, (n == 7) & !s.mail.full),
        mail: mail_after(n, v, s.mail),
        ..s
    }
}

// The drives after a byte that was written at the register r by a master with this BUS_CONNECT.
#[tactic(auto, using(crate::proofs::Laws::drives_law))]
fn drives_written(granted: bool, connect: bool, r: Register, v: u8, b: Bus) -> Bus
    ensures { result ≡ drives_written granted connect r v b }
{
    let n = register_number(r);
    let request = bit_0(v);
    let frees = (n == 1) & (granted & ((v / 4 % 2 == 1) | !request));
    let sets = (n == 2) & (granted & !connect);
    Bus {
        drivescl: frees | pick(sets, v / 64 % 2 == 1, b.drivescl),
        drivesda: frees | pick(sets, v / 128 % 2 == 1, b.drivesda),
        ..b
    }
}

// The turn after a byte that was written at the register r.
#[tactic(auto, using(crate::proofs::Laws::turn_law))]
fn turn_written(granted: bool, r: Register, v: u8, t: Turn) -> Turn
    ensures { result ≡ turn_written granted r v t }
{
    let n = register_number(r);
    let request = bit_0(v);
    pick((n == 1) & (granted & !request), Turn::Nobody, t)
}

// ---- the device

// WRITE by master m.
#[tactic(auto, unfolding(arbiter::specs::Effects::written))]
pub fn written_by(m: Master, v: u8, d: Device) -> Device
    ensures { result ≡ written m v d }
{
    let (own, other) = sides_of(m, d);
    let granted = owns_turn(m, d.arb.turn);
    let turn = turn_written(granted, own.pointer, v, d.arb.turn);
    let moved = Device {
        bus: drives_written(granted, own.contr.busconnect, own.pointer, v, d.bus),
        arb: with_turn(turn, d.arb),
        ..d
    };
    with_sides(
        m,
        writer_side(rolls_over(d), granted, v, own),
        mail_written(own.pointer, v, other),
        moved,
    )
}

// PAIR.
#[tactic(auto, unfolding(arbiter::specs::Effects::paired))]
pub fn paired_by(v0: u8, v1: u8, d: Device) -> Device
    ensures { result ≡ paired v0 v1 d }
{
    let rolls = rolls_over(d);
    let at0 = d.side0.pointer;
    let at1 = d.side1.pointer;
    let owns0 = owns_turn(Master::Zero, d.arb.turn);
    let owns1 = owns_turn(Master::One, d.arb.turn);
    let connect0 = d.side0.contr.busconnect;
    let connect1 = d.side1.contr.busconnect;
    let turn = turn_written(owns1, at1, v1, turn_written(owns0, at0, v0, d.arb.turn));
    Device {
        side0: mail_written(at1, v1, writer_side(rolls, owns0, v0, d.side0)),
        side1: mail_written(at0, v0, writer_side(rolls, owns1, v1, d.side1)),
        bus: drives_written(
            owns1,
            connect1,
            at1,
            v1,
            drives_written(owns0, connect0, at0, v0, d.bus),
        ),
        arb: with_turn(turn, d.arb),
        ..d
    }
}
