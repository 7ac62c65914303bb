// A shelf's row in a lent buffer, for Rust and C: what is answered packed in one number.
#![tactic(auto)]

ghost use Rattle.std.specs.Prelude.{◌≡◌};
ghost use Rattle.rowimage.specs.Calls.{row_answer, row_buffer, row_shown};
ghost use Rattle.rowimage.specs.Slots.{fresh_row_number, fresh_row_buffer};
ghost use Rattle.packing.specs.Packed.{packed_answer};

use arbiter::Raw;
use packing::packed_answer;
use rowimage::slots::fresh_row;
use rowimage::{number_of, show_row, step_row};

// One event on the devices of a row, by its four bytes and the address or place that it names.
pub fn step_packed(name: u8, kind: u8, x: u8, y: u8, z: u8, row: &mut [u8]) -> u32
    ensures { (result ≡ packed_answer (row_answer row.old name (record { kind = kind; x = x; y = y; z = z }))) × (row.new ≡ row_buffer row.old name (record { kind = kind; x = x; y = y; z = z })) }
{
    let a = step_row(row, name, Raw { kind, x, y, z });
    packed_answer(a)
}

// The device at a place as it stands, without an event.
pub fn show_packed(place: u8, row: &[u8]) -> u32
    ensures { result ≡ packed_answer (row_shown place row.now) }
{
    packed_answer(show_row(row, place))
}

// A fresh row, from an address and a kind of part for each place.
pub fn fresh_packed(slots: &[u8], row: &mut [u8]) -> u32
    ensures { (result ≡ fresh_row_number slots.now row.old) × (row.new ≡ fresh_row_buffer slots.now row.old) }
{
    u32::from(number_of(fresh_row(slots, row)))
}
