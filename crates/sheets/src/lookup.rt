// A box looked up: the board sheet's if ticked, else the house sheet's.
ghost use Rattle.std.specs.Prelude.{◌≤◌, ◌<◌, ◌≡◌, length};
ghost use Rattle.sheets.specs.Sheets.{box_place, place_at, box_on, place_of, place_number, look_up_number, part_of, start_of};

use crate::pair::{Pair, pair_of};
use crate::sheet::check_pair;
use crate::{Fault, Place};

#[tactic(auto, unfolding(crate::specs::Sheets::place_at))]
fn place_at(pair: Pair, at: usize) -> Result<Place, Fault>
    requires { at < 15 }
    ensures { result ≡ place_at at pair.entry.board.bytes.now pair.entry.house.bytes.now }
{
    if pair.board.is_ticked(at) {
        Ok(Place::Board(at))
    } else if pair.house.is_ticked(at) {
        Ok(Place::House(at))
    } else {
        Err(Fault::Unticked)
    }
}

fn box_place(section: u8, controller: u8) -> usize
    requires { (section < 3) × (controller < 2) }
    ensures { result ≡ box_place section controller }
{
    5 * usize::from(section) + 1 + 2 * usize::from(controller)
}

#[tactic(auto, unfolding(crate::specs::Sheets::box_on))]
fn box_on(pair: Pair, section: u8, controller: u8) -> Result<Place, Fault>
    ensures { result ≡ box_on section controller pair.entry.board.bytes.now pair.entry.house.bytes.now }
{
    if section < 3 && controller < 2 {
        place_at(pair, box_place(section, controller))
    } else {
        Err(Fault::NoSuchBox)
    }
}

// Where the box of a section (0 reserve, 1 priority, 2 idle) and a controller is taken from, or why none is. Both are numbers, as C hands them over.
#[tactic(auto, using(crate::proofs::Numbers::place_told), unfolding(crate::specs::Sheets::place_of))]
pub fn place_of(board: &[u8], house: &[u8], section: u8, controller: u8) -> Result<Place, Fault>
    ensures value { result ≡ place_of section controller board.now house.now }
    ensures result_value { place_number result ≡ look_up_number section controller board.now house.now }
{
    check_pair(board, house)?;
    box_on(pair_of(board, house), section, controller)
}

// That box: the two bytes, tick and value, of the sheet that it is taken from.
// On any refusal it is the empty part at the board sheet's front: `start_of` says so, and `place_of` says why.
#[tactic(auto, using(crate::proofs::Sound::in_board, crate::proofs::Sound::in_house))]
pub fn look_up<'a>(board: &'a [u8], house: &'a [u8], section: u8, controller: u8) -> &'a [u8]
    ensures { (result.now ≡ part_of (place_of section controller board.now house.now) board.now house.now)
        × (result.ref_ptr ≡ start_of (place_of section controller board.now house.now) board.entry.ref_ptr house.entry.ref_ptr) }
{
    match place_of(board, house, section, controller) {
        Ok(Place::Board(at)) => &board[at..at + 2],
        Ok(Place::House(at)) => &house[at..at + 2],
        Err(_) => &board[0..0],
    }
}

// The number of that: 0 where a box is handed back, else why none is. The two answers of a look-up are 02's: a part, and a number.
#[tactic(auto, unfolding(crate::specs::Sheets::place_of))]
pub fn look_up_number(board: &[u8], house: &[u8], section: u8, controller: u8) -> u8
    ensures { result ≡ place_number (place_of section controller board.now house.now) }
{
    match place_of(board, house, section, controller) {
        Ok(_) => 0,
        Err(why) => u8::from(why),
    }
}
