// The straps for Rust and C: pins and address packed in one number.
#![tactic(auto)]

ghost use Rattle.std.specs.Prelude.{◌≡◌, Some};
ghost use Rattle.arbiter.specs.Straps.{address_of, straps_of};
ghost use Rattle.packed_straps.specs.Packed.{packed_address, packed_pins};

use arbiter::Pins;
use straps::{address_of, straps_of};

// The address of four pins.
pub fn packed_address(ad3: u8, ad2: u8, ad1: u8, ad0: u8) -> u32
    ensures { result ≡ packed_address (address_of (record { ad3 = ad3; ad2 = ad2; ad1 = ad1; ad0 = ad0 })) }
{
    match address_of(Pins { ad3, ad2, ad1, ad0 }) {
        Some(address) => 256 * u32::from(address),
        None => 8,
    }
}

fn packed_codes(p: Pins) -> u64
    ensures { result ≡ packed_pins (Some p) }
{
    u64::from_le_bytes([0, p.ad3, p.ad2, p.ad1, p.ad0, 0, 0, 0])
}

// The pins of an address.
pub fn packed_pins(address: u8) -> u64
    ensures { result ≡ packed_pins (straps_of address) }
{
    match straps_of(address) {
        Some(pins) => packed_codes(pins),
        None => 11,
    }
}
