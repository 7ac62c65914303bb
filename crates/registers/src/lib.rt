// What a master reads of its registers and what reading does, when its output is asserted, and a fall of INT_IN.
#![tactic(auto)]

ghost use Rattle.std.specs.Prelude.{◌≡◌};
ghost use Rattle.arbiter.specs.Registers.{contr_byte, status_byte, raised, int_status_byte, register_byte, is_asserted};
ghost use Rattle.arbiter.specs.Effects.{after_read, is_mail_high, empties, reader_side, sender_side, int_in_fallen};
ghost use Rattle.registers.specs.Boxes.{mail_unless};

use arbiter::{Bus, Control, Mailbox, Port, Register, Side};
use bits::{byte_of, pick, worth_of};
use bus::{bus_hung, scl_high, sda_high};

// ---- interrupts

// The interrupts with this one set too, if it happened.
pub fn raised_in(ints: u8, this: u8, happened: bool) -> u8
    ensures { result ≡ raised this happened ints }
{
    ints | worth_of(this, happened)
}

fn int_status_byte(hung: bool, ints: u8) -> u8
    ensures { result ≡ int_status_byte hung ints }
{
    raised_in(ints, 0x40, hung)
}

pub fn is_asserted_by(hung: bool, ints: u8, mask: u8) -> bool
    ensures { result ≡ is_asserted hung ints mask }
{
    let status = int_status_byte(hung, ints);
    !(status & (0x7F - mask % 128) == 0)
}

// LINES: a fall of INT_IN is told to both sides.
pub fn fallen_side(fell: bool, s: Side) -> Side
    ensures { result ≡ int_in_fallen fell s }
{
    Side {
        ints: raised_in(s.ints, 0x01, fell),
        ..s
    }
}

// ---- the byte read

fn contr_byte(granted: bool, c: Control) -> u8
    ensures { result ≡ contr_byte granted c }
{
    byte_of(
        c.priority,
        c.smbusdis,
        c.idletimer,
        c.swrst,
        c.businit,
        c.busconnect,
        granted,
        c.lockreq,
    )
}

fn is_full(m: Mailbox) -> bool
    ensures { result ≡ m.full }
{
    m.full
}

fn status_byte(theirs: bool, own: Side, other: Side, b: Bus, initfail: bool) -> u8
    ensures { result ≡ status_byte theirs own other b initfail }
{
    let sda = sda_high(b);
    let scl = scl_high(b);
    let hung = bus_hung(b);
    byte_of(
        sda,
        scl,
        false,
        is_full(own.mail),
        !is_full(other.mail),
        hung,
        initfail,
        theirs,
    )
}

// What a master reads at its own pointer.
#[tactic(auto, unfolding(arbiter::specs::Registers::register_byte))]
pub fn register_byte(
    granted: bool,
    theirs: bool,
    own: Side,
    other: Side,
    b: Bus,
    initfail: bool,
) -> u8
    ensures { result ≡ register_byte own.pointer granted theirs own other b initfail }
{
    let at = own.pointer;
    match at {
        Register::Id => 0x38,
        Register::Contr => contr_byte(granted, own.contr),
        Register::Status => status_byte(theirs, own, other, b, initfail),
        Register::Rt => own.rt,
        Register::IntStatus => int_status_byte(bus_hung(b), own.ints),
        Register::IntMask => own.mask,
        Register::MailLow => own.mail.low,
        Register::MailHigh => own.mail.high,
    }
}

// ---- what reading does

// The pointer one further; from 7 it goes to 0.
pub fn after_read(r: Register) -> Register
    ensures { result ≡ after_read r }
{
    match r {
        Register::Id => Register::Contr,
        Register::Contr => Register::Status,
        Register::Status => Register::Rt,
        Register::Rt => Register::IntStatus,
        Register::IntStatus => Register::IntMask,
        Register::IntMask => Register::MailLow,
        Register::MailLow => Register::MailHigh,
        Register::MailHigh => Register::Id,
    }
}

fn is_mail_high(r: Register) -> bool
    ensures { result ≡ is_mail_high r }
{
    r == Register::MailHigh
}

pub fn empties_own(s: Side) -> bool
    ensures { result ≡ empties s }
{
    is_mail_high(s.pointer) & s.mail.full
}

fn emptied_if(emptied: bool, m: Mailbox) -> Mailbox
    ensures { result ≡ mail_unless emptied m }
{
    Mailbox {
        full: m.full & !emptied,
        ..m
    }
}

pub fn reader_side(s: Side) -> Side
    ensures { result ≡ reader_side s }
{
    Side {
        pointer: pick(s.auto, after_read(s.pointer), s.pointer),
        mail: emptied_if(empties_own(s), s.mail),
        port: Port::Open,
        ..s
    }
}

pub fn sender_side(emptied: bool, s: Side) -> Side
    ensures { result ≡ sender_side emptied s }
{
    Side {
        ints: raised_in(s.ints, 0x10, emptied),
        ..s
    }
}
