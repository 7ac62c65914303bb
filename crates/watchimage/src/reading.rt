// A listener read from its buffer. A number of several bytes has the low one first.
ghost use Rattle.std.specs.Prelude.{◌<◌, ◌≡◌, length};
ghost use Rattle.watchlayout.specs.Numbers.{double_at, long_at, awaited_of};
ghost use Rattle.watchlayout.specs.Places.{watch_length, settings_in, bus_at, ear_in, check_at, tally_in, watcher_in};

use capture::{Awaited, Both, Listener};
use fields::{master_of, register_at};
use format::byte_at;
use image::{flag_at, read_image};
use layout::IMAGE_LENGTH;
use watch::{Check, Ear, Settings, Tally, Watcher};

// ---- bytes and numbers

fn double_at(at: usize, b: &[u8]) -> u32
    requires { at < 250 }
    ensures { result ≡ double_at at b.now }
{
    u32::from_le_bytes([
        byte_at(at, b),
        byte_at(at + 1, b),
        byte_at(at + 2, b),
        byte_at(at + 3, b),
    ])
}

fn long_at(at: usize, b: &[u8]) -> u64
    requires { at < 200 }
    ensures { result ≡ long_at at b.now }
{
    u64::from_le_bytes([
        byte_at(at, b),
        byte_at(at + 1, b),
        byte_at(at + 2, b),
        byte_at(at + 3, b),
        byte_at(at + 4, b),
        byte_at(at + 5, b),
        byte_at(at + 6, b),
        byte_at(at + 7, b),
    ])
}

fn awaited_of(v: u8) -> Awaited
    ensures { result ≡ awaited_of v }
{
    match v {
        0 => Awaited::NoByte,
        1 => Awaited::AddressByte,
        2 => Awaited::CommandByte,
        3 => Awaited::WriteByte,
        4 => Awaited::ReadByte,
        5 => Awaited::CallByte,
        _ => Awaited::SkippedByte,
    }
}

// ---- the parts of a listener

#[tactic(auto, unfolding(watchlayout::specs::Places::settings_in))]
fn settings_in(b: &[u8]) -> Settings
    ensures { result ≡ settings_in b.now }
{
    Settings {
        address: byte_at(38, b),
        every: double_at(39, b),
        below: flag_at(43, b),
    }
}

#[tactic(auto, unfolding(watchlayout::specs::Places::bus_at))]
fn bus_at(at: usize, b: &[u8]) -> Listener
    requires { at < 200 }
    ensures { result ≡ bus_at at b.now }
{
    Listener {
        awaited: awaited_of(byte_at(at, b)),
        clocks: byte_at(at + 1, b),
        value: byte_at(at + 2, b),
        owed: flag_at(at + 3, b),
        broken: false,
    }
}

#[tactic(auto, unfolding(watchlayout::specs::Places::ear_in))]
fn ear_in(b: &[u8]) -> Ear
    ensures { result ≡ ear_in b.now }
{
    Ear {
        begun: flag_at(44, b),
        before: byte_at(45, b),
        since: double_at(46, b),
        both: Both {
            bus0: bus_at(50, b),
            bus1: bus_at(54, b),
        },
    }
}

#[tactic(auto, unfolding(watchlayout::specs::Places::check_at))]
fn check_at(at: usize, b: &[u8]) -> Check
    requires { at < 200 }
    ensures { result ≡ check_at at b.now }
{
    Check {
        sample: long_at(at, b),
        master: master_of(byte_at(at + 8, b)),
        register: register_at(byte_at(at + 9, b)),
        heard: byte_at(at + 10, b),
        expected: byte_at(at + 11, b),
    }
}

#[tactic(auto, unfolding(watchlayout::specs::Places::tally_in))]
fn tally_in(b: &[u8]) -> Tally
    ensures { result ≡ tally_in b.now }
{
    Tally {
        samples: long_at(58, b),
        events: long_at(66, b),
        reads: long_at(74, b),
        differences: long_at(82, b),
        faults: long_at(90, b),
        fault: long_at(98, b),
        first: check_at(106, b),
        read0: check_at(118, b),
        read1: check_at(130, b),
    }
}

// The listener of a buffer that is long enough.
pub(crate) fn watcher_in(b: &[u8]) -> Watcher
    requires { length b.now ≡ watch_length }
    ensures { result ≡ watcher_in b.now }
{
    Watcher {
        settings: settings_in(b),
        ear: ear_in(b),
        device: read_image(&b[..IMAGE_LENGTH]),
        tally: tally_in(b),
    }
}
