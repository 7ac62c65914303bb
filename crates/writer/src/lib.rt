// A trace written from its pins, its kind of part and its events into a lent buffer, as the reader takes it.
#![tactic(auto)]

ghost use Rattle.std.specs.Prelude.{◌≡◌};
ghost use Rattle.arbiter.specs.Writing.{written_number, written, buffer_written};
ghost use Rattle.format.specs.Refused.{number_of, written_of};
ghost use Rattle.writer.specs.Numbers.{body_number};

use arbiter::{Pins, Refusal};
use format::{
    EVENT_BYTES, HEAD_BYTES, KIND_BYTES, MOST_EVENTS, is_kind, kind_of, put_bytes, put_head,
    put_kind,
};
use straps::address_of;

// ---- the refusals, in their order

// Of pins that have an address: what refuses this kind, so many bytes of events and this room.
#[tactic(auto, unfolding(crate::specs::Numbers::body_number))]
fn check_body(kind: u8, len: usize, room: usize) -> Result<(), Refusal>
    ensures { number_of result ≡ body_number kind len room }
{
    let n = len / EVENT_BYTES;
    if len % EVENT_BYTES != 0 {
        return Err(Refusal::TraceCut);
    }
    if MOST_EVENTS < n {
        return Err(Refusal::TooManyEvents);
    }
    if !is_kind(kind) {
        return Err(Refusal::UnknownPart);
    }
    if room < HEAD_BYTES + EVENT_BYTES * n + KIND_BYTES {
        return Err(Refusal::NoRoom);
    }
    Ok(())
}

#[tactic(auto, unfolding(arbiter::specs::Writing::written_number, crate::specs::Numbers::body_number))]
fn check_parts(p: Pins, kind: u8, events: &[u8], room: usize) -> Result<(), Refusal>
    ensures { number_of result ≡ written_number p kind events.now room }
{
    match address_of(p) {
        Some(_) => check_body(kind, events.len(), room),
        None => Err(Refusal::BadStraps),
    }
}

// ---- the trace

// The trace of these pins, this kind of part and these events: its length, and its bytes in the lent buffer. A refusal leaves the buffer
// as it was. No event is looked at.
#[tactic(auto, using(crate::proofs::Laws::zero_fits, crate::proofs::Laws::refused_written, crate::proofs::Laws::refused_buffer, crate::proofs::Laws::all_written, crate::proofs::Laws::all_stored))]
pub fn write_trace(p: Pins, kind: u8, events: &[u8], out: &mut [u8]) -> Result<usize, Refusal>
    ensures { (written_of result ≡ written p kind events.now out.old) × (out.new ≡ buffer_written p kind events.now out.old) }
{
    check_parts(p, kind, events, out.len())?;
    let n = (events.len() / EVENT_BYTES) as u16;
    put_head(out, p, n);
    put_bytes(out, HEAD_BYTES, events);
    put_kind(out, n, kind_of(kind));
    Ok(HEAD_BYTES + events.len() + KIND_BYTES)
}
