// The flat image of a device, request #108: its length, and why a call on one is refused. What an image is stands in specs/, and specs/Lib.antt
// lists the files in reading order.
#![tactic(auto)]

ghost use Rattle.std.specs.Prelude.{◌≡◌};
ghost use Rattle.layout.specs.Refusals.{refusal_number};

// An image has so many bytes: image_length in specs/Layout.
pub const IMAGE_LENGTH: usize = 38;

// Why a call on an image is refused: the buffer has another length, a field is outside its range, or the call asks for what there is not: another
// kind of part, a master above 1, a register above 7, or too many ticks. A listener has refusals and numbers of its own (`watchlayout`).
#[derive(Clone, Copy, PartialEq, Eq)]
pub enum ImageRefusal {
    Length,
    Range,
    Argument,
}

// Document 02's number of a refusal.
impl From<ImageRefusal> for u8 {
    ghost from_gives = { λ r n. n ≡ refusal_number r };

    fn from(r: ImageRefusal) -> u8 {
        match r {
            ImageRefusal::Length => 9,
            ImageRefusal::Range => 16,
            ImageRefusal::Argument => 3,
        }
    }
}
