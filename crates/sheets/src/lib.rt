// The order sheet. Which bytes are a sheet is in `sheet`, two sound sheets side by side in `pair`, a box looked up on a board sheet and a house sheet in
// `lookup`, the events that a complete pair of sheets orders in `settings`, and how long each controller can wait by them in `waits`.
#![tactic(auto)]

pub mod lookup;
mod pair;
pub mod settings;
pub mod sheet;
pub mod waits;

// Why a pair of sheets is refused: a sheet under 15 bytes, a count that is not 2, a box out of range, bytes after a sheet's end; no such
// section or controller, a box unticked on both sheets, no room for the events.
#[derive(Clone, Copy, PartialEq, Eq)]
pub enum Fault {
    TooShort,
    WrongCount,
    BadBox,
    BytesAfterEnd,
    NoSuchBox,
    Unticked,
    NoRoom,
}

// Where a box is taken from: this byte of the board sheet or of the house sheet.
#[derive(Clone, Copy, PartialEq, Eq)]
pub enum Place {
    Board(usize),
    House(usize),
}

// What is ordered for one master.
#[derive(Clone, Copy, PartialEq, Eq)]
pub struct Setting {
    pub reserve: u8,
    pub priority: bool,
    pub idle: bool,
}

// What a complete pair of sheets orders. Two fields and no array: statements of specs/ (`OrderFound`, `outset_of`) name them.
#[derive(Clone, Copy, PartialEq, Eq)]
pub struct Order {
    pub master0: Setting,
    pub master1: Setting,
}

// How long a controller can wait: so many ticks behind a live holder; so many behind a silent one alone; or with no bound.
#[derive(Clone, Copy, PartialEq, Eq)]
pub enum Bound {
    BehindLive(u16),
    BehindSilent(u16),
    Unbounded,
}
