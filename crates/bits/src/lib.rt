// A choice by a test, a byte and its bits, and counts that stop.
#![tactic(auto)]

ghost use Rattle.std.specs.Prelude.{◌≤◌, ◌≡◌, if◌then◌else◌};
ghost use Rattle.arbiter.specs.Words.{bit, worth, byte_of};
ghost use Rattle.arbiter.specs.Effects.{counted_to};

// One of two, of any type, by a test: bits, bytes, counts, registers, turns.
pub fn pick<T: Copy>(test: bool, x: T, y: T) -> T
    ensures { result ≡ (if test then x else y) }
{
    if test { x } else { y }
}

// ---- a byte and its bits

// Bit 0 of a byte. (The others are read as the definition has them: bit 2 is `v / 4 % 2 == 1`.)
pub fn bit_0(v: u8) -> bool
    ensures { result ≡ bit 0 v }
{
    v % 2 == 1
}

// What a bit of weight k adds to its byte.
pub fn worth_of(k: u8, b: bool) -> u8
    ensures { (result ≡ worth k b) × (result ≤ k) }
{
    if b { k } else { 0 }
}

// The byte of eight bits, bit 7 first.
pub fn byte_of(b7: bool, b6: bool, b5: bool, b4: bool, b3: bool, b2: bool, b1: bool, b0: bool) -> u8
    ensures { result ≡ byte_of b7 b6 b5 b4 b3 b2 b1 b0 }
{
    worth_of(128, b7)
        + worth_of(64, b6)
        + worth_of(32, b5)
        + worth_of(16, b4)
        + worth_of(8, b3)
        + worth_of(4, b2)
        + worth_of(2, b1)
        + worth_of(1, b0)
}

// ---- counts

// One more where it counts and is below its top. A count of a byte goes by its wider type.
pub fn counted(top: u16, up: bool, n: u16) -> u16
    ensures { result ≡ counted_to top up n }
{
    if up & (n < top) { n + 1 } else { n }
}
