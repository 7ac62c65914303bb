// What the loop over events asks of the two sides that it holds beside each other, of the bus and of the turn, and what it makes of them (request #114).
ghost use Rattle.std.specs.Prelude.{◌≡◌, ◌&&◌, not, eqb, if◌then◌else◌};
ghost use Rattle.arbiter.specs.Words.{partner};
ghost use Rattle.arbiter.specs.State.{claims_turn, owns_turn, is_initialising, at_rest, for_writing};
ghost use Rattle.arbiter.specs.Registers.{register_byte, own_written, mail_written};
ghost use Rattle.arbiter.specs.Events.{level, master, good_command, writable, outcome_number};
ghost use Rattle.arbiter.specs.Effects.{write_risen, hold_asked};
ghost use Rattle.arbiter.specs.declared.Master.TheVariants.{Zero, One};
ghost use Rattle.arbiter.specs.declared.Outcome.TheVariants.{Done, NotAcknowledged};
ghost use Rattle.arbitration.specs.Quiet.{no_loss};
ghost use Rattle.step.specs.Carried.{kept};
ghost use Rattle.light.specs.Light.{is_settled};
ghost use Rattle.light.specs.Ended.{leaves_turn, lined_bus};
ghost use Rattle.traces.specs.Sides.{byte_is_light, lines_shown, device_of};

use arbiter::{
    Answer, Arbitration, Bus, Device, HOLD_TICKS, Kind, Master, Raw, Register, Side, Turn,
};
use arbitration::losses::{no_cut, no_loss};
use bits::{bit_0, worth_of};
use bus::{bus_hung, outside_of, scl_high, sda_high, settled_bus};
use connection::initialises;
use events::acknowledged_number;
use fields::{claims_turn, master_of, owns_turn, register_number};
use ports::{is_at_rest, is_for_writing};
use quiet::{is_calm, is_still};
use registers::{is_asserted_by, register_byte};
use writing::{mail_written, writable_at, writer_side};

// ---- the turn, as a master finds it

// One test, as the loop wants it.
fn partner_at(x: u8) -> Master
    ensures { result ≡ partner (master x) }
{
    if x == 0 { Master::One } else { Master::Zero }
}

fn claims_at(x: u8, a: Arbitration) -> bool
    ensures { result ≡ claims_turn (master x) a.turn }
{
    claims_turn(master_of(x), a.turn)
}

// A STOP of this master brings it the grant: it claims, and SCL is not held.
pub(crate) fn is_granted_at_rest(x: u8, b: Bus, a: Arbitration) -> bool
    ensures { result ≡ claims_turn (master x) a.turn && eqb b.hold 0 }
{
    claims_at(x, a) & (b.hold == 0)
}

pub(crate) fn granted_at(x: u8, a: Arbitration) -> bool
    ensures { result ≡ owns_turn (master x) a.turn }
{
    owns_turn(master_of(x), a.turn)
}

fn partner_granted_at(x: u8, a: Arbitration) -> bool
    ensures { result ≡ owns_turn (partner (master x)) a.turn }
{
    owns_turn(partner_at(x), a.turn)
}

pub(crate) fn is_initialising(a: Arbitration) -> bool
    ensures { result ≡ is_initialising a.switch }
{
    initialises(a.switch)
}

// ---- a side, and a byte that is written or read

pub(crate) fn takes_bytes(s: Side) -> bool
    ensures { result ≡ for_writing s.port }
{
    is_for_writing(s.port)
}

pub(crate) fn is_resting(s: Side) -> bool
    ensures { result ≡ at_rest s.port }
{
    is_at_rest(s.port)
}

fn leaves_turn(m: Master, request: bool, t: Turn) -> bool
    ensures { result ≡ leaves_turn m request t }
{
    match t {
        Turn::Nobody => !request,
        Turn::Claims(k, _) => request | (m != k),
        Turn::Owns(k, _) => m != k,
    }
}

// By the number of the register: a jump by a register that nobody can foresee is dear.
fn byte_is_light(at: Register, m: Master, granted: bool, v: u8, t: Turn, connect: bool) -> bool
    ensures { result ≡ byte_is_light at m granted v t connect }
{
    let n = register_number(at);
    (!(n == 1) | leaves_turn(m, bit_0(v), t)) & !((n == 2) & granted & !connect)
}

// A byte of this master, whose side is s, moves neither turn nor drives.
pub(crate) fn writes_lightly(x: u8, v: u8, a: Arbitration, s: Side) -> bool
    ensures { result ≡ byte_is_light s.pointer (master x) (owns_turn (master x) a.turn) v a.turn s.contr.busconnect }
{
    let granted = granted_at(x, a);
    byte_is_light(
        s.pointer,
        master_of(x),
        granted,
        v,
        a.turn,
        s.contr.busconnect,
    )
}

// The partner's side o after a byte that was written at the pointer of s.
pub(crate) fn partner_written(v: u8, s: Side, o: Side) -> Side
    ensures { result ≡ mail_written s.pointer v o }
{
    mail_written(s.pointer, v, o)
}

// The byte that a READ of this master hands out; s is its side, and o is its partner's.
pub(crate) fn byte_read(x: u8, a: Arbitration, s: Side, o: Side, b: Bus) -> u8
    ensures { result ≡ register_byte s.pointer (owns_turn (master x) a.turn) (owns_turn (partner (master x)) a.turn) s o b a.initfail }
{
    let granted = granted_at(x, a);
    let theirs = partner_granted_at(x, a);
    register_byte(granted, theirs, s, o, b, a.initfail)
}

pub(crate) fn commanded_number(c: u8) -> u8
    ensures { result ≡ outcome_number (if good_command c then Done else NotAcknowledged) }
{
    acknowledged_number(c / 8 % 16 == 0)
}

pub(crate) fn written_number(s: Side) -> u8
    ensures { result ≡ outcome_number (if writable s.pointer then Done else NotAcknowledged) }
{
    acknowledged_number(writable_at(s.pointer))
}

// ---- LINES

// The bus after these levels and part 2 of a step.
pub(crate) fn bus_lined(r: Raw, b: Bus) -> Bus
    ensures { result ≡ lined_bus (level r.x) (level r.y) (level r.z) b }
{
    settled_bus(b, outside_of(r.x == 1, r.y == 1, r.z == 1, b))
}

pub(crate) fn intin_fell(r: Raw, b: Bus) -> bool
    ensures { result ≡ b.intin && not (level r.z) }
{
    b.intin & !(r.z == 1)
}

// ---- a settled device

// A device tells whether it is settled.
pub(crate) fn is_settled(d: Device) -> bool
    ensures { result ≡ is_settled d }
{
    is_still(d.bus)
        & (is_calm(d.arb.turn, d) & no_cut(false, d.arb.turn, d) & no_loss(d.arb.turn, d))
}

// ---- the device and its answer

pub(crate) fn device_of(kind: Kind, side0: Side, side1: Side, bus: Bus, arb: Arbitration) -> Device
    ensures { result ≡ device_of kind side0 side1 bus arb }
{
    Device {
        kind,
        side0,
        side1,
        bus,
        arb,
    }
}

// With this bus its owner, if it has one, keeps the grant.
pub(crate) fn ends_no_grant(
    kind: Kind,
    side0: Side,
    side1: Side,
    bus: Bus,
    arb: Arbitration,
) -> bool
    ensures { result ≡ no_loss arb.turn (device_of kind side0 side1 bus arb) }
{
    no_loss(arb.turn, device_of(kind, side0, side1, bus, arb))
}

pub(crate) fn lines_shown(s0: Side, s1: Side, b: Bus) -> u8
    ensures { result ≡ lines_shown s0 s1 b }
{
    let hung = bus_hung(b);
    let int0 = is_asserted_by(hung, s0.ints, s0.mask);
    let int1 = is_asserted_by(hung, s1.ints, s1.mask);
    worth_of(1, int0) + worth_of(2, int1) + worth_of(4, scl_high(b)) + worth_of(8, sda_high(b))
}

pub(crate) fn answer_kept(outcome: u8, read: u8, owner: u8, lines: u8) -> Answer
    ensures { result ≡ kept outcome read owner lines }
{
    Answer {
        outcome,
        read,
        owner,
        lines,
    }
}

// ---- PAIR and a soft reset

// The two bytes of a PAIR move neither turn nor drives.
pub(crate) fn pairs_lightly(v0: u8, v1: u8, a: Arbitration, s0: Side, s1: Side) -> bool
    ensures { result ≡ byte_is_light s0.pointer Zero (owns_turn Zero a.turn) v0 a.turn s0.contr.busconnect && byte_is_light s1.pointer One (owns_turn One a.turn) v1 a.turn s1.contr.busconnect }
{
    writes_lightly(0, v0, a, s0) & writes_lightly(1, v1, a, s1)
}

// The side s after its own byte v, and then its partner's byte w, the partner's side being o.
pub(crate) fn pair_side(rolls: bool, granted: bool, v: u8, w: u8, s: Side, o: Side) -> Side
    ensures { result ≡ mail_written o.pointer w (write_risen rolls (own_written granted s.pointer v s)) }
{
    mail_written(o.pointer, w, writer_side(rolls, granted, v, s))
}

pub(crate) fn paired_number(s0: Side, s1: Side) -> u8
    ensures { result ≡ outcome_number (if writable s0.pointer && writable s1.pointer then Done else NotAcknowledged) }
{
    acknowledged_number(writable_at(s0.pointer) & writable_at(s1.pointer))
}

// For how many ticks SCL is held after a soft reset by the master with the side s.
pub(crate) fn hold_asked(s: Side) -> u8
    ensures { result ≡ hold_asked s }
{
    worth_of(HOLD_TICKS, s.contr.swrst)
}
