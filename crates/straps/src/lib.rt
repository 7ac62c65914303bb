// The address straps: from the four pins to the address, and from the address to the pins, by the class rule of document 01.
//
// The class is a number of three bits, AD2, AD1 and AD0, where a resistor counts 1 and a tie 0. The first address of a class is 10h above
// that of the class before; ttt comes after rrr, and AD3 at VDD adds 8:
//
//   class    ttr 1  trt 2  trr 3  rtt 4  rtr 5  rrt 6  rrr 7  ttt 0
//   AD3 VSS  00h    10h    20h    30h    40h    50h    60h    70h
//   AD3 VDD  08h    18h    28h    38h    48h    58h    68h    78h
//
// That is the paper's table but for its two "none", which come out as 00h and 78h. No address from these is in the range, 08h to 77h.
#![tactic(auto)]

ghost use Rattle.std.specs.Prelude.{◌≡◌};
ghost use Rattle.arbiter.specs.Straps.{in_range, address_of, straps_of};
ghost use Rattle.arbiter.specs.Straps.{strapped_number, strapped_address, strapping_number, address_number, address_value, straps_number};

use arbiter::Pins;

// The addresses that straps can give: 08h to 77h.
pub fn in_range(address: u8) -> bool
    ensures { result ≡ in_range address }
{
    !(address < 0x08) & (address < 0x78)
}

// The address of four pins. Refusal 8, with no address: a code above 3, or an unlisted strapping.
pub fn address_of(p: Pins) -> Option<u8>
    ensures value { result ≡ address_of p }
    ensures result_value { (strapped_number result ≡ address_number p) × (strapped_address result ≡ address_value p) }
{
    // AD3 is a tie, and the others have codes.
    let coded = (p.ad3 < 2) & (p.ad2 < 4) & (p.ad1 < 4) & (p.ad0 < 4);
    // Codes 2 and 3 are resistors; 1 and 3 count 1 in the address.
    let class = 4 * (p.ad2 / 2 % 2) + 2 * (p.ad1 / 2 % 2) + p.ad0 / 2 % 2;
    let bits = 4 * (p.ad2 % 2) + 2 * (p.ad1 % 2) + p.ad0 % 2;
    // Class 1 is the first, and class 0 the last, of eight.
    let first = 0x10 * ((class + 7) % 8) + 8 * (p.ad3 % 2);
    let address = first + bits;
    if coded & in_range(address) {
        Some(address)
    } else {
        None
    }
}

// The four pins of an address. Refusal 11, with no strapping: an address outside 08h to 77h.
pub fn straps_of(address: u8) -> Option<Pins>
    ensures value { result ≡ straps_of address }
    ensures result_value { strapping_number result ≡ straps_number address }
{
    if in_range(address) {
        // A pin's code is 2 if the class has a resistor there, and 1 more if its bit of the address is 1.
        let class = (address / 0x10 + 1) % 8;
        let pins = Pins {
            ad3: address / 8 % 2,
            ad2: 2 * (class / 4 % 2) + address / 4 % 2,
            ad1: 2 * (class / 2 % 2) + address / 2 % 2,
            ad0: 2 * (class % 2) + address % 2,
        };
        Some(pins)
    } else {
        None
    }
}
