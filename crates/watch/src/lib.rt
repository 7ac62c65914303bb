// A listener on both upstream buses, with the device's model beside the chip: the types. What they mean is written in specs/, and specs/Lib.antt lists
// the files in reading order.
#![tactic(auto)]

use arbiter::{Device, Master, Register};
use capture::Both;

// What a listener is told before the first sample: the device's address, how many samples are one TICK (with 0 there are no TICKs), and whether
// bits 4 to 6 of a sample are the bus below.
#[derive(Clone, Copy)]
pub struct Settings {
    pub address: u8,
    pub every: u32,
    pub below: bool,
}

// What is known between two samples: whether there was one, the last one, how many came since the last TICK, and both buses.
// A flag stands beside the last sample: a buffer holds both bytes, and `ReadBack` of `watchlayout` says that both come back, whatever the flag.
#[derive(Clone, Copy)]
pub struct Ear {
    pub begun: bool,
    pub before: u8,
    pub since: u32,
    pub both: Both,
}

// A READ that was heard: in which sample, by whom, of which register, the byte on SDA, and the byte that the model answers.
#[derive(Clone, Copy)]
pub struct Check {
    pub sample: u64,
    pub master: Master,
    pub register: Register,
    pub heard: u8,
    pub expected: u8,
}

// What was counted so far, the first READ that differed, the last READ of each master, and the sample of the first fault. Where there was none it is all
// zeros.
// Zeros stand for none, and each master has a field: `ReadBack` says that every byte of them comes back, and `with_read` names the fields.
#[derive(Clone, Copy)]
pub struct Tally {
    pub samples: u64,
    pub events: u64,
    pub reads: u64,
    pub differences: u64,
    pub faults: u64,
    pub fault: u64,
    pub first: Check,
    pub read0: Check,
    pub read1: Check,
}

// A listener between two samples, whole.
#[derive(Clone, Copy)]
pub struct Watcher {
    pub settings: Settings,
    pub ear: Ear,
    pub device: Device,
    pub tally: Tally,
}
