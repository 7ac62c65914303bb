// Order sheets for Rust and C: where a box is taken from, what is ordered and how long a controller can wait, packed in one number.
#![tactic(auto)]

ghost use Rattle.std.specs.Prelude.{◌≡◌};
ghost use Rattle.sheets.specs.Sheets.{place_of, fault_number};
ghost use Rattle.sheets.specs.Settings.{ordered, ordered_buffer};
ghost use Rattle.sheets.specs.Waits.{wait_of};
ghost use Rattle.packed_sheets.specs.Packed.{packed_box, packed_order, packed_wait};

use sheets::lookup::place_of;
use sheets::settings::order_events;
use sheets::waits::wait_of;
use sheets::{Bound, Fault, Place};

// A refusal's number, with nothing above it.
fn refused(why: Fault) -> u64
    ensures { result ≡ fault_number why }
{
    u64::from(u8::from(why))
}

// Where the box of a section and a controller is taken from, of a board sheet and a house sheet.
#[tactic(auto, using(sheets::proofs::Sound::board_inside, sheets::proofs::Sound::house_inside))]
pub fn packed_box(board: &[u8], house: &[u8], section: u8, controller: u8) -> u64
    ensures { result ≡ packed_box (place_of section controller board.now house.now) }
{
    match place_of(board, house, section, controller) {
        Ok(Place::Board(at)) => 256 + 65536 * (at as u64),
        Ok(Place::House(at)) => 512 + 65536 * (at as u64),
        Err(why) => refused(why),
    }
}

// The twelve events that a board sheet and a house sheet order, into a lent buffer.
#[tactic(auto, using(sheets::proofs::Complete::ordered_few))]
pub fn packed_events(board: &[u8], house: &[u8], events: &mut [u8]) -> u64
    ensures { (result ≡ packed_order (ordered board.now house.now events.old)) × (events.new ≡ ordered_buffer board.now house.now events.old) }
{
    match order_events(board, house, events) {
        Ok(count) => 256 * (count as u64),
        Err(why) => refused(why),
    }
}

// How long a controller can wait by a board sheet and a house sheet, on a part of this kind.
pub fn packed_wait(board: &[u8], house: &[u8], controller: u8, kind: u8) -> u64
    ensures { result ≡ packed_wait (wait_of controller kind board.now house.now) }
{
    match wait_of(board, house, controller, kind) {
        Ok(Bound::BehindLive(ticks)) => 256 + 65536 * u64::from(ticks),
        Ok(Bound::BehindSilent(ticks)) => 512 + 65536 * u64::from(ticks),
        Ok(Bound::Unbounded) => 768,
        Err(why) => refused(why),
    }
}
