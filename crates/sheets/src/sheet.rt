// Which bytes are a sheet: three sections of two boxes, and the refusals of a sheet and of a pair.
ghost use Rattle.std.specs.Prelude.{◌+◌, ◌≤◌, ◌<◌, ◌≡◌, length};
ghost use Rattle.sheets.specs.Sheets.{check_pair, fault_number, checked_number, pair_number};

use crate::Fault;
use crate::pair::check_sheet;

// The board sheet first, then the house sheet.
#[tactic(auto, using(crate::proofs::Numbers::pair_passed, crate::proofs::Numbers::pair_refused), unfolding(crate::specs::Sheets::check_pair))]
pub fn check_pair(board: &[u8], house: &[u8]) -> Result<(), Fault>
    ensures value { result ≡ check_pair board.now house.now }
    ensures result_value { checked_number result ≡ pair_number board.now house.now }
{
    check_sheet(board)?;
    check_sheet(house)
}

// Document 02's number of a refusal.
impl From<Fault> for u8 {
    ghost from_gives = { λ why n. n ≡ fault_number why };

    fn from(why: Fault) -> u8 {
        match why {
            Fault::TooShort => 5,
            Fault::WrongCount => 10,
            Fault::BadBox => 3,
            Fault::BytesAfterEnd => 7,
            Fault::NoSuchBox => 15,
            Fault::Unticked => 14,
            Fault::NoRoom => 9,
        }
    }
}

// The same by its name in the definitions.
pub fn fault_number(why: Fault) -> u8
    ensures { result ≡ fault_number why }
{
    u8::from(why)
}
