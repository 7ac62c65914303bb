// A listener laid out in a lent buffer: its length, and why a call on one is refused. What stands where is written in specs/, and specs/Lib.antt lists
// the files in reading order.
#![tactic(auto)]

ghost use Rattle.std.specs.Prelude.{◌≡◌};
ghost use Rattle.watchlayout.specs.Refusals.{refusal_number};

// A buffer has so many bytes: watch_length in specs/Places.
pub const WATCH_LENGTH: usize = 142;

// Why a call on a listener is refused: the buffer has another length, a field is outside its range, there is no such kind of part or no such word on the
// bus below, or no strap gives the address.
#[derive(Clone, Copy, PartialEq, Eq)]
pub enum WatchRefusal {
    Length,
    Range,
    Argument,
    Address,
}

// Document 02's number of a refusal.
impl From<WatchRefusal> for u8 {
    ghost from_gives = { λ r n. n ≡ refusal_number r };

    fn from(r: WatchRefusal) -> u8 {
        match r {
            WatchRefusal::Length => 9,
            WatchRefusal::Range => 16,
            WatchRefusal::Argument => 3,
            WatchRefusal::Address => 11,
        }
    }
}
