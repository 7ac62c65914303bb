// What the crates of the boundary share: a byte as a number of 64 bits, and the four bytes of an answer in one number.
#![tactic(auto)]

ghost use Rattle.std.specs.Prelude.{◌<◌, ◌≡◌};
ghost use Rattle.packing.specs.Packed.{packed_answer};

use arbiter::Answer;

pub fn long_of(x: u8) -> u64
    ensures { (result ≡ x) × (result < 256) }
{
    u64::from(x)
}

pub fn packed_answer(a: Answer) -> u32
    ensures { result ≡ packed_answer a }
{
    u32::from_le_bytes([a.outcome, a.read, a.owner, a.lines])
}
