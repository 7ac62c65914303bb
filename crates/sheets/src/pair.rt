// A board sheet and a house sheet that have passed every test, side by side, and what both say of a box.
ghost use Rattle.std.specs.Prelude.{◌+◌, ◌≤◌, ◌<◌, ◌≡◌, length, Ok};
ghost use Rattle.sheets.specs.Sheets.{ticked, value_on, counts_right, box_right, flag_right, boxes_right, check_sheet, check_pair};

use crate::Fault;

// The bytes of a sheet, with room for its boxes. A slice: two references to arrays side by side are compiled wrongly for 32 bits.
#[derive(Clone, Copy)]
pub(crate) struct Sheet<'a> {
    pub bytes: &'a [u8],
    ghost long: { 15 ≤ length bytes.now },
}

impl Sheet<'_> {
    pub(crate) fn is_ticked(self, at: usize) -> bool
        requires { at < 15 }
        ensures { result ≡ ticked at self.entry.bytes.now }
    {
        self.bytes[at] == 1
    }

    pub(crate) fn value(self, at: usize) -> u8
        requires { at + 2 ≤ 15 }
        ensures { result ≡ value_on at self.entry.bytes.now }
    {
        self.bytes[at + 1]
    }

    #[tactic(auto, unfolding(crate::specs::Sheets::counts_right))]
    fn has_right_counts(self) -> bool
        ensures { result ≡ counts_right self.entry.bytes.now }
    {
        (self.bytes[0] == 2) & (self.bytes[5] == 2) & (self.bytes[10] == 2)
    }

    // A reserve's box.
    #[tactic(auto, unfolding(crate::specs::Sheets::box_right))]
    fn has_right_box(self, at: usize) -> bool
        requires { at + 2 ≤ 15 }
        ensures { result ≡ box_right at self.entry.bytes.now }
    {
        let value = self.value(at);
        (self.bytes[at] < 2) & (self.is_ticked(at) | (value == 0))
    }

    // A priority's or an idle setting's box.
    #[tactic(auto, unfolding(crate::specs::Sheets::flag_right))]
    fn has_right_flag(self, at: usize) -> bool
        requires { at + 2 ≤ 15 }
        ensures { result ≡ flag_right at self.entry.bytes.now }
    {
        self.has_right_box(at) & (self.value(at) < 2)
    }

    #[tactic(auto, unfolding(crate::specs::Sheets::boxes_right))]
    fn has_right_boxes(self) -> bool
        ensures { result ≡ boxes_right self.entry.bytes.now }
    {
        self.has_right_box(1)
            & self.has_right_box(3)
            & self.has_right_flag(6)
            & self.has_right_flag(8)
            & self.has_right_flag(11)
            & self.has_right_flag(13)
    }
}

#[tactic(auto, unfolding(crate::specs::Sheets::check_sheet))]
pub(crate) fn check_sheet(bytes: &[u8]) -> Result<(), Fault>
    ensures { result ≡ check_sheet bytes.now }
{
    if bytes.len() < 15 {
        return Err(Fault::TooShort);
    }
    let sheet = Sheet { bytes };
    if !sheet.has_right_counts() {
        return Err(Fault::WrongCount);
    }
    if !sheet.has_right_boxes() {
        return Err(Fault::BadBox);
    }
    if 15 < bytes.len() {
        return Err(Fault::BytesAfterEnd);
    }
    Ok(())
}

// Both sheets, once they are known to be sound. No fault stands beside them, so that a microcontroller copies no pair.
#[derive(Clone, Copy)]
pub(crate) struct Pair<'a> {
    pub board: Sheet<'a>,
    pub house: Sheet<'a>,
}

#[tactic(auto, using(crate::proofs::Sound::pair_long))]
pub(crate) fn pair_of<'a>(board: &'a [u8], house: &'a [u8]) -> Pair<'a>
    requires { check_pair board.now house.now ≡ Ok tt }
    ensures { (result.board.bytes.now ≡ board.now) × (result.house.bytes.now ≡ house.now) }
{
    let board = Sheet { bytes: board };
    let house = Sheet { bytes: house };
    Pair { board, house }
}
