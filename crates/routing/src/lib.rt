// What is decided for a shelf's row, on plain values: what is known of it once it has been looked at, whom an event reaches, and which places make
// the step. The crate `showing` has what one record does, and the crate `rows` goes through the row.
#![tactic(auto)]

ghost use Rattle.std.specs.Prelude.{◌≡◌};
ghost use Rattle.shelf.specs.Shelf.{is_in, naming, fault_number, fault_answer};
ghost use Rattle.routing.specs.Deciding.{start_of, first_at, see_of, place_in, place_below, named_in, reach_for, reach_in, no_answer, plan_by, plan_of};

use arbiter::Answer;
use shelf::{Fault, Naming, Reach, Record};
use std::ops::Range;

// What is known of a row after some records: the name that is looked for and its place, how many records there are (17 for any more than
// 16), their addresses, and whether two of these are equal.
#[derive(Clone, Copy)]
pub struct Seen {
    pub name: u8,
    pub count: u8,
    pub equal: bool,
    pub place: Option<u8>,
    // An array with a count: there is no heap, and the addresses of a row of bytes stand in no slice of their own.
    pub addresses: [u8; 16],
}

// ---- whom an event reaches

#[tactic(auto, unfolding(crate::specs::Deciding::start_of))]
pub fn start(name: u8) -> Seen
    ensures { result ≡ start_of name }
{
    Seen {
        name,
        count: 0,
        equal: false,
        place: None,
        addresses: [0; 16],
    }
}

#[tactic(auto, using(crate::proofs::Told::any_in))]
fn is_among(addresses: &[u8], a: u8) -> bool
    ensures { result ≡ is_in a addresses.now }
{
    addresses.contains(&a)
}

// The first place stays.
#[tactic(auto, unfolding(crate::specs::Deciding::first_at))]
fn first_at(place: Option<u8>, hit: bool, n: u8) -> Option<u8>
    ensures { result ≡ first_at place hit n }
{
    place.or(hit.then_some(n))
}

// One more record, with this address.
#[tactic(auto, unfolding(crate::specs::Deciding::see_of))]
pub fn see(s: Seen, address: u8) -> Seen
    ensures { result ≡ see_of s address }
{
    let at = usize::from(s.count);
    if at < 16 {
        let equal = s.equal | is_among(&s.addresses[..at], address);
        let place = first_at(s.place, address == s.name, s.count);
        let mut addresses = s.addresses;
        addresses[at] = address;
        Seen {
            name: s.name,
            count: s.count + 1,
            equal,
            place,
            addresses,
        }
    } else {
        Seen { count: 17, ..s }
    }
}

pub fn see_record(s: Seen, c: Record) -> Seen
    ensures { result ≡ see_of s c.address }
{
    see(s, c.address)
}

#[tactic(auto, unfolding(shelf::specs::Shelf::naming))]
fn naming_of(kind: u8) -> Naming
    ensures { result ≡ naming kind }
{
    match kind {
        0..=4 => Naming::AnAddress,
        5 | 7 => Naming::APlace,
        _ => Naming::Nothing,
    }
}

// A place that was found.
fn place_in(place: Option<u8>) -> Result<Reach, Fault>
    ensures { result ≡ place_in place }
{
    place.map(Reach::At).ok_or(Fault::NotInRow)
}

// The place with this number, if there are so many.
#[tactic(auto, unfolding(crate::specs::Deciding::place_below))]
fn place_below(name: u8, count: u8) -> Result<Reach, Fault>
    ensures { result ≡ place_below name count }
{
    if name < count {
        Ok(Reach::At(name))
    } else {
        Err(Fault::NotInRow)
    }
}

#[tactic(auto, unfolding(crate::specs::Deciding::named_in))]
fn named_in(n: Naming, s: Seen) -> Result<Reach, Fault>
    ensures { result ≡ named_in n s }
{
    match n {
        Naming::AnAddress => place_in(s.place),
        Naming::APlace => place_below(s.name, s.count),
        Naming::Nothing => Ok(Reach::Everyone),
    }
}

// The refusals of the shelf, in their order, or whom the name reaches.
#[tactic(auto, unfolding(crate::specs::Deciding::reach_for))]
pub fn reach_for(s: Seen, n: Naming) -> Result<Reach, Fault>
    ensures { result ≡ reach_for s n }
{
    if s.count == 0 {
        Err(Fault::EmptyRow)
    } else if 16 < s.count {
        Err(Fault::TooMany)
    } else if s.equal {
        Err(Fault::EqualAddresses)
    } else {
        named_in(n, s)
    }
}

#[tactic(auto, unfolding(crate::specs::Deciding::reach_in))]
fn reach_in(s: Seen, kind: u8) -> Result<Reach, Fault>
    ensures { result ≡ reach_in s kind }
{
    reach_for(s, naming_of(kind))
}

// ---- what is to be done

pub fn fault_number(f: Fault) -> u8
    ensures { result ≡ fault_number f }
{
    match f {
        Fault::EmptyRow => 5,
        Fault::TooMany => 6,
        Fault::EqualAddresses => 17,
        Fault::NotInRow => 18,
    }
}

pub fn fault_answer(f: Fault) -> Answer
    ensures { result ≡ fault_answer f }
{
    Answer {
        outcome: fault_number(f),
        ..no_answer()
    }
}

pub fn no_answer() -> Answer
    ensures { result ≡ no_answer }
{
    Answer {
        outcome: 0,
        read: 0,
        owner: 0,
        lines: 0,
    }
}

fn plan_by(w: Reach, count: u8) -> Range<usize>
    ensures { result ≡ plan_by w count }
{
    match w {
        Reach::At(i) => usize::from(i)..usize::from(i) + 1,
        Reach::Everyone => 0..usize::from(count),
    }
}

// The places that are to make the step.
#[tactic(auto, unfolding(crate::specs::Deciding::plan_of))]
pub fn plan_of(s: Seen, kind: u8) -> Result<Range<usize>, Fault>
    ensures { result ≡ plan_of s kind }
{
    let w = reach_in(s, kind)?;
    Ok(plan_by(w, s.count))
}
