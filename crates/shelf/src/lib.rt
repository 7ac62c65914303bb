// A shelf with several arbiters (request #110): the types. What they mean is written in specs/, and specs/Lib.antt lists the files in
// reading order.
#![tactic(auto)]

use arbiter::Device;

// One record of the row: a device and its address.
#[derive(Clone, Copy, PartialEq, Eq)]
pub struct Record {
    pub address: u8,
    pub device: Device,
}

// What an event names, by its kind: an address, a place in the row, or nothing.
#[derive(Clone, Copy, PartialEq, Eq)]
pub enum Naming {
    AnAddress,
    APlace,
    Nothing,
}

// Why the shelf refuses an event before any device meets it.
#[derive(Clone, Copy, PartialEq, Eq)]
pub enum Fault {
    EmptyRow,
    TooMany,
    EqualAddresses,
    NotInRow,
}

// Whom an event reaches that the shelf does not refuse: the device at one place, or every device.
#[derive(Clone, Copy, PartialEq, Eq)]
pub enum Reach {
    At(u8),
    Everyone,
}
