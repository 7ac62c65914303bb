// The arbiter's types. What they mean is written in specs/, one file for each section of documents 01 and 02; specs/Lib.antt lists them in its order.
#![tactic(auto)]

// ---- limits

// The idle count stops here, and an owner with RT 00h and IDLE_TIMER_DIS then loses: rules_of in specs/Rules, one for each kind of part.
pub const PCA9641_IDLE_LIMIT: u8 = 101;

pub const TPT29641_IDLE_LIMIT: u8 = 151;

// A low count stops here, and the bus is hung: scl_hung_limit and sda_hung_limit in specs/State.
pub const SCL_HUNG_LIMIT: u16 = 500;

pub const SDA_HUNG_LIMIT: u16 = 501;

// So many ticks a soft reset holds SCL low where SMBUS_SWRST asks for it: hold_ticks in specs/Effects.
pub const HOLD_TICKS: u8 = 35;

// The tick that makes SCL low for so long cuts the owner off where SMBUS_DIS asks for it: cut_ticks in specs/Order.
pub const CUT_TICKS: u16 = 35;

// ---- who

// The two masters, each at its own upstream port.
#[derive(Clone, Copy, PartialEq, Eq)]
pub enum Master {
    Zero,
    One,
}

// On what ground a claim was won, with its number: its master asked alone, or had priority, or was not the last granted.
#[derive(Clone, Copy, PartialEq, Eq)]
pub enum Ground {
    Sole = 1,
    Priority = 2,
    LastGranted = 3,
}

// Whose turn it is: nobody asks, m is the claimant and waits, m is granted and owns the bus. A claim has its ground, and the grant keeps it.
#[derive(Clone, Copy, PartialEq, Eq)]
pub enum Turn {
    Nobody,
    Claims(Master, Ground),
    Owns(Master, Ground),
}

// ---- one master's port and registers

// A port is at rest, open (but not for writing), or open for writing.
#[derive(Clone, Copy, PartialEq, Eq)]
pub enum Port {
    Rest,
    Open,
    Writing,
}

// The eight registers, by name, in the order of their numbers from 0 to 7. The pointer of a port is one of them.
#[derive(Clone, Copy, PartialEq, Eq)]
pub enum Register {
    Id,
    Contr,
    Status,
    Rt,
    IntStatus,
    IntMask,
    MailLow,
    MailHigh,
}

// CONTR as it is stored: LOCK_GRANT is not, for it is read off the turn.
#[derive(Clone, Copy, PartialEq, Eq)]
pub struct Control {
    pub priority: bool,
    pub smbusdis: bool,
    pub idletimer: bool,
    pub swrst: bool,
    pub businit: bool,
    pub busconnect: bool,
    pub lockreq: bool,
}

// A master's own mailbox.
#[derive(Clone, Copy, PartialEq, Eq)]
pub struct Mailbox {
    pub low: u8,
    pub high: u8,
    pub full: bool,
}

// A master's registers and its port. INT_STATUS keeps its bits 5 to 0 as a byte: bit 6 equals BUS_HUNG and is not stored. The order of
// the fields, here and below, is the one measured to run fastest.
#[derive(Clone, Copy, PartialEq, Eq)]
pub struct Side {
    pub pointer: Register,
    pub rt: u8,
    pub contr: Control,
    pub ints: u8,
    pub mail: Mailbox,
    pub auto: bool,
    pub port: Port,
    pub mask: u8,
}

// ---- what the two share

// The downstream bus: outside levels and INT_IN, the two drives, the hold, and what is counted. True is high, or released.
#[derive(Clone, Copy, PartialEq, Eq)]
pub struct Bus {
    pub outscl: bool,
    pub outsda: bool,
    pub intin: bool,
    pub drivescl: bool,
    pub drivesda: bool,
    pub busy: bool,
    pub hold: u8,
    pub idle: u8,
    pub lowscl: u16,
    pub lowsda: u16,
}

// The switch says by itself whom it connects: apart, initialising for m after so many PULSEs of 0, or closed for m.
#[derive(Clone, Copy, PartialEq, Eq)]
pub enum Switch {
    Apart,
    Initialising(Master, u8),
    Closed(Master),
}

// The last granted master is none at first.
#[derive(Clone, Copy, PartialEq, Eq)]
pub struct Arbitration {
    pub last: Option<Master>,
    pub initfail: bool,
    pub switch: Switch,
    pub reserve: u8,
    pub turn: Turn,
}

// The kind of part, number 0 and number 1: the PCA9641 of source document 003, or the TPT29641 of 000.
#[derive(Clone, Copy, PartialEq, Eq)]
pub enum Kind {
    Pca9641,
    Tpt29641,
}

#[derive(Clone, Copy, PartialEq, Eq)]
pub struct Device {
    pub kind: Kind,
    pub side0: Side,
    pub side1: Side,
    pub bus: Bus,
    pub arb: Arbitration,
}

// ---- events and answers

// The four bytes of an event as they come: the kind and three fields.
#[derive(Clone, Copy, PartialEq, Eq)]
pub struct Raw {
    pub kind: u8,
    pub x: u8,
    pub y: u8,
    pub z: u8,
}

// The ten kinds of event.
#[derive(Clone, Copy, PartialEq, Eq)]
pub enum Event {
    Command(Master, u8),
    Write(Master, u8),
    Read(Master),
    Stop(Master),
    Pair(u8, u8),
    Lines(bool, bool, bool),
    Tick,
    Pulse(bool),
    Reset,
    GeneralCall(Master, u8),
}

// The clock of an initialisation that an event is: none, or one with SDA low or high. Three names, since an Option<bool> would read as a level.
#[derive(Clone, Copy, PartialEq, Eq)]
pub enum Clock {
    NoClock,
    ClockLow,
    ClockHigh,
}

// Why four bytes do not read as an event, with its number: an unknown kind, or a field out of range or unused and not 0.
#[derive(Clone, Copy, PartialEq, Eq)]
pub enum Unread {
    UnknownKind = 2,
    BadField = 3,
}

// What a device makes of an event that reads as one, with its number.
#[derive(Clone, Copy, PartialEq, Eq)]
pub enum Outcome {
    Done = 0,
    NotAcknowledged = 1,
    OutOfSequence = 4,
}

// The four bytes of an answer: the outcome's number, the byte read, owner and switch, outputs and levels.
#[derive(Clone, Copy, PartialEq, Eq)]
pub struct Answer {
    pub outcome: u8,
    pub read: u8,
    pub owner: u8,
    pub lines: u8,
}

// The new device, and the answer.
#[derive(Clone, Copy, PartialEq, Eq)]
pub struct Stepped {
    pub device: Device,
    pub answer: Answer,
}

// ---- straps and traces

// The codes of the four address pins.
#[derive(Clone, Copy, PartialEq, Eq)]
pub struct Pins {
    pub ad3: u8,
    pub ad2: u8,
    pub ad1: u8,
    pub ad0: u8,
}

// Why a whole trace is refused, with its number.
#[derive(Clone, Copy, PartialEq, Eq)]
pub enum Refusal {
    TraceCut = 5,
    TooManyEvents = 6,
    BytesAfterEnd = 7,
    BadStraps = 8,
    NoRoom = 9,
    BadCount = 10,
    UnknownPart = 3,
}

// What is read of a trace that is accepted: its address, its count of events and its kind of part.
#[derive(Clone, Copy, PartialEq, Eq)]
pub struct Accepted {
    pub address: u8,
    pub events: usize,
    pub kind: Kind,
}
