// A logic analyser's capture of the two upstream buses: the types. What they mean is written in specs/, and specs/Lib.antt lists the files
// in reading order.
#![tactic(auto)]

ghost use Rattle.std.specs.Prelude.{◌≡◌};
ghost use Rattle.capture.specs.Import.{refusal_number};

use arbiter::Event;

// The two lines of one bus in one sample. True is high.
#[derive(Clone, Copy, PartialEq, Eq)]
pub struct Levels {
    pub scl: bool,
    pub sda: bool,
}

// What two samples after each other show on one bus: START, STOP, a rising clock with its bit, or none of these.
#[derive(Clone, Copy, PartialEq, Eq)]
pub enum Sign {
    Steady,
    Starts,
    Stops,
    Clocks(bool),
}

// What the byte in hand is for. Outside START to STOP there is none: a variant and no Option, since specs/ (`awaited_after`, `owes`) goes through
// all seven at once.
#[derive(Clone, Copy, PartialEq, Eq)]
pub enum Awaited {
    NoByte,
    AddressByte,
    CommandByte,
    WriteByte,
    ReadByte,
    CallByte,
    SkippedByte,
}

// What is known of one bus between two samples: the byte in hand, its rising clocks so far and the bits that they brought; whether a STOP
// is owed, for a COMMAND or READ since the last one; and whether a START or STOP came inside a byte.
#[derive(Clone, Copy, PartialEq, Eq)]
pub struct Listener {
    pub awaited: Awaited,
    pub clocks: u8,
    pub value: u8,
    pub owed: bool,
    pub broken: bool,
}

// What a sample gives on one bus where it gives anything. A data write is kept apart until the other bus is known: it is a WRITE or one half of a PAIR.
#[derive(Clone, Copy, PartialEq, Eq)]
pub enum Given {
    Written(u8),
    Gives(Event),
}

// Both buses between two samples. Two fields and no array here and in `Heard`: statements of specs/ (`sampled`, `CutJoined`) name them.
#[derive(Clone, Copy, PartialEq, Eq)]
pub struct Both {
    pub bus0: Listener,
    pub bus1: Listener,
}

// Both buses after a sample, and what it gives on each.
#[derive(Clone, Copy, PartialEq, Eq)]
pub struct Heard {
    pub both: Both,
    pub given0: Option<Given>,
    pub given1: Option<Given>,
}

// Why a capture gives no events: more than 32,768 samples, an address outside 08h to 77h, a START or STOP inside a byte or an end inside one, no room for
// the events.
#[derive(Clone, Copy, PartialEq, Eq)]
pub enum ImportFault {
    TooLong,
    BadAddress,
    Cut,
    NoRoom,
}

// 02's number of a refusal.
impl From<ImportFault> for u8 {
    ghost from_gives = { λ why n. n ≡ refusal_number why };

    fn from(why: ImportFault) -> u8 {
        match why {
            ImportFault::TooLong => 13,
            ImportFault::BadAddress => 11,
            ImportFault::Cut => 12,
            ImportFault::NoRoom => 9,
        }
    }
}
