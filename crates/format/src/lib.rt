// The format of a trace: its sections, where each begins and how long it is. Whoever reads, runs, lists or writes a trace has these from
// here, and the number of a refusal. A trace is a count byte and the four pins, a two-byte count of events, then the events, four bytes each,
// and last a count byte and the kind of part.
#![tactic(auto)]

ghost use Rattle.std.specs.Prelude.{◌+◌, ◌≤◌, ◌≡◌, length};
ghost use Rattle.std.proofs.Math.Seq.{paste};
ghost use Rattle.arbiter.specs.Traces.{byte_at, pins_in, count_in, events_end, whole_bytes, kind_number, is_kind, kind_of, kind_at, refusal_number};
ghost use Rattle.format.specs.Places.{with_head, with_bytes, events_part, event_at, with_kind, with_answer};

use arbiter::{Answer, Device, Kind, Pins, Raw, Refusal};

// ---- sizes

// The count byte that goes before the pins.
pub const PIN_COUNT: u8 = 4;

// The count byte and the pins: the count of events starts after these.
pub const PIN_BYTES: usize = 5;

// The count byte, the pins and the count of events: the events start after these.
pub const HEAD_BYTES: usize = 7;

// An event has four bytes, and so has its answer.
pub const EVENT_BYTES: usize = 4;

pub const MOST_EVENTS: usize = 4096;

// The count byte that goes before the kind of part, and the length of both.
pub const KIND_COUNT: u8 = 1;

pub const KIND_BYTES: usize = 2;

// The longest trace.
pub const MOST_BYTES: usize = HEAD_BYTES + EVENT_BYTES * MOST_EVENTS + KIND_BYTES;

// Room for the answers of any trace.
pub const ANSWER_ROOM: usize = EVENT_BYTES * MOST_EVENTS;

// Where the events of a trace of n end, and its length.
pub fn events_end(n: u16) -> usize
    ensures { result ≡ events_end n }
{
    HEAD_BYTES + EVENT_BYTES * (n as usize)
}

pub fn whole_bytes(n: u16) -> usize
    ensures { result ≡ whole_bytes n }
{
    events_end(n) + KIND_BYTES
}

// ---- the head

// A byte of a buffer, and 0 past its end: whoever asks for a part of a trace or an image has seen that the buffer is long enough.
pub fn byte_at(at: usize, b: &[u8]) -> u8
    ensures { result ≡ byte_at at b.now }
{
    if at < b.len() { b[at] } else { 0 }
}

pub fn pins_in(t: &[u8]) -> Pins
    ensures { result ≡ pins_in t.now }
{
    Pins {
        ad3: byte_at(1, t),
        ad2: byte_at(2, t),
        ad1: byte_at(3, t),
        ad0: byte_at(4, t),
    }
}

pub fn count_in(t: &[u8]) -> u16
    ensures { result ≡ count_in t.now }
{
    u16::from(byte_at(5, t)) + 256 * u16::from(byte_at(6, t))
}

// The head of a trace of n events, in a buffer that has room for it.
pub fn put_head(out: &mut [u8], p: Pins, n: u16)
    ensures { out.new ≡ with_head out.old p n }
{
    if HEAD_BYTES <= out.len() {
        out[0] = PIN_COUNT;
        out[1] = p.ad3;
        out[2] = p.ad2;
        out[3] = p.ad1;
        out[4] = p.ad0;
        out[5] = (n % 256) as u8;
        out[6] = (n / 256) as u8;
    }
}

// ---- bytes as they are

// These bytes from a place on, one after the other: `copy_from_slice` between two lent buffers is a `memmove`, which the archive for C would then need from
// whoever links it.
fn copy_bytes(out: &mut [u8], at: usize, bytes: &[u8])
    requires { at + length bytes.now ≤ length out.old }
    ensures { out.new ≡ paste out.old at bytes.now (length bytes.now) }
{
    for i in 0..bytes.len() {
        out[at + i] = bytes[i];
    }
}

// The same in a buffer that has room for them.
pub fn put_bytes(out: &mut [u8], at: usize, bytes: &[u8])
    ensures { out.new ≡ with_bytes out.old at bytes.now }
{
    if bytes.len() <= out.len() {
        if at <= out.len() - bytes.len() {
            copy_bytes(out, at, bytes);
        }
    }
}

// ---- the events

// The part of a trace that holds its events. It is empty where the trace ends before they do.
pub fn events_in(t: &[u8]) -> &[u8]
    ensures { result.now ≡ events_part t.now }
{
    let end = events_end(count_in(t));
    if t.len() < end {
        return &t[..0];
    }
    &t[HEAD_BYTES..end]
}

// Event i of these bytes, and four zeros where there are not so many.
pub fn event_at(events: &[u8], i: usize) -> Raw
    ensures { result ≡ event_at i events.now }
{
    if i < events.len() / EVENT_BYTES {
        let from = EVENT_BYTES * i;
        return Raw {
            kind: events[from],
            x: events[from + 1],
            y: events[from + 2],
            z: events[from + 3],
        };
    }
    Raw {
        kind: 0,
        x: 0,
        y: 0,
        z: 0,
    }
}

// ---- the kind of part

// The count byte after n events, and the kind's byte after that.
pub fn kind_count_at(t: &[u8], n: u16) -> u8
    ensures { result ≡ byte_at (events_end n) t.now }
{
    byte_at(events_end(n), t)
}

pub fn kind_at(t: &[u8], n: u16) -> u8
    ensures { result ≡ kind_at n t.now }
{
    byte_at(events_end(n) + 1, t)
}

// A byte names a kind of part, and which.
pub fn is_kind(b: u8) -> bool
    ensures { result ≡ is_kind b }
{
    b < 2
}

// No TryFrom: `kind_of` of arbiter/specs takes every byte, and `is_kind` asks first.
pub fn kind_of(b: u8) -> Kind
    ensures { result ≡ kind_of b }
{
    if b == 0 {
        Kind::Pca9641
    } else {
        Kind::Tpt29641
    }
}

pub fn kind_number(k: Kind) -> u8
    ensures { result ≡ kind_number k }
{
    k as u8
}

pub fn kind_byte(d: Device) -> u8
    ensures { result ≡ kind_number d.kind }
{
    kind_number(d.kind)
}

// The count byte and the kind after n events, in a buffer that has room for the whole trace.
pub fn put_kind(out: &mut [u8], n: u16, k: Kind)
    ensures { out.new ≡ with_kind out.old n k }
{
    if whole_bytes(n) <= out.len() {
        let at = events_end(n);
        out[at] = KIND_COUNT;
        out[at + 1] = kind_number(k);
    }
}

// ---- the answers

// The answer to event i at its place, where the buffer has it.
pub fn put_answer(answers: &mut [u8], i: usize, a: Answer)
    ensures { answers.new ≡ with_answer answers.old i a }
{
    if i < answers.len() / EVENT_BYTES {
        let at = EVENT_BYTES * i;
        answers[at] = a.outcome;
        answers[at + 1] = a.read;
        answers[at + 2] = a.owner;
        answers[at + 3] = a.lines;
    }
}

// ---- a refusal

pub fn refusal_number(r: Refusal) -> u8
    ensures { result ≡ refusal_number r }
{
    r as u8
}
