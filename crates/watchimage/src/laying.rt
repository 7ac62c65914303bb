// A listener laid out in its buffer, part after part.
ghost use Rattle.std.specs.Prelude.{◌+◌, ◌≤◌, ◌<◌, ◌≡◌, length};
ghost use Rattle.ranges.specs.Ranges.{pulses};
ghost use Rattle.capture.specs.Events.{master_byte};
ghost use Rattle.watchlayout.specs.Numbers.{double_bytes, long_bytes, awaited_number};
ghost use Rattle.watchlayout.specs.Places.{watch_length, settings_bytes, bus_bytes, ear_bytes, check_bytes, laid};
ghost use Rattle.watchimage.specs.Parts.{with_part, count_bytes, read_bytes};

use arbiter::Master;
use capture::{Awaited, Listener};
use fields::register_number;
use imaging::write_image;
use layout::IMAGE_LENGTH;
use watch::{Check, Ear, Settings, Tally, Watcher};

// ---- the bytes of the parts; the two widths are two functions, each in the words of watchlayout/specs/Numbers

fn double_bytes(n: u32) -> [u8; 4]
    ensures { result ≡ double_bytes n }
{
    n.to_le_bytes()
}

fn long_bytes(n: u64) -> [u8; 8]
    ensures { result ≡ long_bytes n }
{
    n.to_le_bytes()
}

// A function and no `From`, as `awaited_of`: the type is of `capture`, and the number is a buffer's alone.
#[tactic(auto, unfolding(watchlayout::specs::Numbers::awaited_number))]
fn awaited_number(awaited: Awaited) -> u8
    ensures { result ≡ awaited_number awaited }
{
    match awaited {
        Awaited::NoByte => 0,
        Awaited::AddressByte => 1,
        Awaited::CommandByte => 2,
        Awaited::WriteByte => 3,
        Awaited::ReadByte => 4,
        Awaited::CallByte => 5,
        Awaited::SkippedByte => 6,
    }
}

fn master_number(m: Master) -> u8
    ensures { result ≡ master_byte m }
{
    m as u8
}

// A bus: a fault is never left over.
fn bus_bytes(l: Listener) -> [u8; 4]
    ensures { result ≡ bus_bytes l }
{
    [
        awaited_number(l.awaited),
        l.clocks,
        l.value,
        u8::from(l.owed),
    ]
}

fn settings_bytes(c: Settings) -> [u8; 6]
    ensures { result ≡ settings_bytes c }
{
    let [e0, e1, e2, e3] = double_bytes(c.every);
    [c.address, e0, e1, e2, e3, u8::from(c.below)]
}

fn ear_bytes(e: Ear) -> [u8; 14]
    ensures { result ≡ ear_bytes e }
{
    let [s0, s1, s2, s3] = double_bytes(e.since);
    let [awaited0, clocks0, value0, owed0] = bus_bytes(e.both.bus0);
    let [awaited1, clocks1, value1, owed1] = bus_bytes(e.both.bus1);
    [
        u8::from(e.begun),
        e.before,
        s0,
        s1,
        s2,
        s3,
        awaited0,
        clocks0,
        value0,
        owed0,
        awaited1,
        clocks1,
        value1,
        owed1,
    ]
}

fn check_bytes(k: Check) -> [u8; 12]
    ensures { result ≡ check_bytes k }
{
    let [s0, s1, s2, s3, s4, s5, s6, s7] = long_bytes(k.sample);
    [
        s0,
        s1,
        s2,
        s3,
        s4,
        s5,
        s6,
        s7,
        master_number(k.master),
        register_number(k.register),
        k.heard,
        k.expected,
    ]
}

// ---- written

// These bytes from a place on.
fn put(at: usize, part: &[u8], out: &mut [u8])
    requires { at + length part.now ≤ length out.old }
    ensures { out.new ≡ with_part at part.now out.old }
{
    out[at..at + part.len()].copy_from_slice(part);
}

fn put_long(at: usize, n: u64, out: &mut [u8])
    requires { at + 8 ≤ length out.old }
    ensures { out.new ≡ with_part at (long_bytes n) out.old }
{
    put(at, &long_bytes(n), out);
}

fn put_check(at: usize, k: Check, out: &mut [u8])
    requires { at + 12 ≤ length out.old }
    ensures { out.new ≡ with_part at (check_bytes k) out.old }
{
    put(at, &check_bytes(k), out);
}

fn put_settings(c: Settings, out: &mut [u8])
    requires { length out.old ≡ watch_length }
    ensures { out.new ≡ with_part 38 (settings_bytes c) out.old }
{
    put(38, &settings_bytes(c), out);
}

fn put_ear(e: Ear, out: &mut [u8])
    requires { length out.old ≡ watch_length }
    ensures { out.new ≡ with_part 44 (ear_bytes e) out.old }
{
    put(44, &ear_bytes(e), out);
}

fn put_counts(t: Tally, out: &mut [u8])
    requires { length out.old ≡ watch_length }
    ensures { out.new ≡ with_part 58 (count_bytes t) out.old }
{
    put_long(58, t.samples, out);
    put_long(66, t.events, out);
    put_long(74, t.reads, out);
    put_long(82, t.differences, out);
    put_long(90, t.faults, out);
    put_long(98, t.fault, out);
}

fn put_reads(t: Tally, out: &mut [u8])
    requires { length out.old ≡ watch_length }
    ensures { out.new ≡ with_part 106 (read_bytes t) out.old }
{
    put_check(106, t.first, out);
    put_check(118, t.read0, out);
    put_check(130, t.read1, out);
}

// All of it. The image of the device stands first.
pub(crate) fn lay(w: Watcher, out: &mut [u8])
    requires { (pulses w.device.arb.switch < 9) × (length out.old ≡ watch_length) }
    ensures { out.new ≡ laid w }
{
    write_image(w.device, &mut out[..IMAGE_LENGTH]);
    put_settings(w.settings, out);
    put_ear(w.ear, out);
    put_counts(w.tally, out);
    put_reads(w.tally, out);
}
