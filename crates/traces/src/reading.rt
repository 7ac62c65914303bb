// A trace read from its bytes, or refused by number.
ghost use Rattle.std.specs.Prelude.{ℕ, ◌≡◌, List, length};
ghost use Rattle.arbiter.specs.Traces.{read_kind, read_counted, read_trace, read_number, report};
ghost use Rattle.traces.specs.Bodies.{kind_read};

use arbiter::{Accepted, Refusal};
use format::{
    EVENT_BYTES, HEAD_BYTES, KIND_COUNT, MOST_EVENTS, PIN_BYTES, PIN_COUNT, count_in, events_end,
    is_kind, kind_at, kind_count_at, kind_of, pins_in, whole_bytes,
};
use straps::address_of;

// From the kind's byte on.
#[tactic(auto, unfolding(crate::specs::Bodies::kind_read))]
fn kind_read(address: u8, n: u16, len: usize, kind: u8, room: usize) -> Result<Accepted, Refusal>
    ensures { result ≡ kind_read address n len kind room }
{
    if len < whole_bytes(n) {
        return Err(Refusal::TraceCut);
    }
    if !is_kind(kind) {
        return Err(Refusal::UnknownPart);
    }
    if whole_bytes(n) < len {
        return Err(Refusal::BytesAfterEnd);
    }
    if room < EVENT_BYTES * (n as usize) {
        return Err(Refusal::NoRoom);
    }
    Ok(Accepted {
        address,
        events: n as usize,
        kind: kind_of(kind),
    })
}

// From the third section on.
#[tactic(auto, unfolding(crate::specs::Bodies::kind_read, arbiter::specs::Traces::read_kind))]
fn read_kind(address: u8, n: u16, t: &[u8], room: usize) -> Result<Accepted, Refusal>
    ensures { result ≡ read_kind address n t.now room }
{
    if t.len() < events_end(n) + 1 {
        return Err(Refusal::TraceCut);
    }
    if kind_count_at(t, n) != KIND_COUNT {
        return Err(Refusal::BadCount);
    }
    kind_read(address, n, t.len(), kind_at(t, n), room)
}

// From the count of events on.
#[tactic(auto, unfolding(arbiter::specs::Traces::read_counted))]
fn read_counted(address: u8, t: &[u8], room: usize) -> Result<Accepted, Refusal>
    ensures { result ≡ read_counted address t.now room }
{
    if t.len() < HEAD_BYTES {
        return Err(Refusal::TraceCut);
    }
    let n = count_in(t);
    if MOST_EVENTS < (n as usize) {
        return Err(Refusal::TooManyEvents);
    }
    if t.len() < events_end(n) {
        return Err(Refusal::TraceCut);
    }
    read_kind(address, n, t, room)
}

// A trace and the room for its answers: accepted, or refused in the order of document 01 and request #105.
pub fn read_trace(t: &[u8], room: usize) -> Result<Accepted, Refusal>
    ensures { (result ≡ read_trace t.now room) × ((buffer : List ℕ) → length buffer ≡ room → read_number result ≡ (report t.now buffer).number) }
{
    if t.len() < 1 {
        return Err(Refusal::TraceCut);
    }
    if t[0] != PIN_COUNT {
        return Err(Refusal::BadCount);
    }
    if t.len() < PIN_BYTES {
        return Err(Refusal::TraceCut);
    }
    match address_of(pins_in(t)) {
        Some(address) => read_counted(address, t, room),
        None => Err(Refusal::BadStraps),
    }
}
