// A trace from before the kind of part (#105), written into a lent buffer with the section of a PCA9641 added.
#![tactic(auto)]

ghost use Rattle.std.specs.Prelude.{◌≡◌};
ghost use Rattle.arbiter.specs.OldTraces.{old_counted, old_number, converted_number, conversion, buffer_converted};
ghost use Rattle.format.specs.Refused.{number_of, written_of};

use arbiter::{Kind, Refusal};
use format::{
    HEAD_BYTES, KIND_BYTES, MOST_EVENTS, PIN_BYTES, PIN_COUNT, count_in, events_end, pins_in,
    put_bytes, put_kind,
};
use straps::address_of;

// ---- the refusals of document 01, in their order

// From the count of events on.
fn check_counted(t: &[u8]) -> Result<(), Refusal>
    ensures { number_of result ≡ old_counted t.now }
{
    if t.len() < HEAD_BYTES {
        return Err(Refusal::TraceCut);
    }
    let n = count_in(t);
    if MOST_EVENTS < usize::from(n) {
        return Err(Refusal::TooManyEvents);
    }
    let end = events_end(n);
    if t.len() < end {
        return Err(Refusal::TraceCut);
    }
    if end < t.len() {
        return Err(Refusal::BytesAfterEnd);
    }
    Ok(())
}

#[tactic(auto, unfolding(arbiter::specs::OldTraces::old_number))]
fn check_old(t: &[u8]) -> Result<(), Refusal>
    ensures { number_of result ≡ old_number t.now }
{
    if t.len() < 1 {
        return Err(Refusal::TraceCut);
    }
    if t[0] != PIN_COUNT {
        return Err(Refusal::BadCount);
    }
    if t.len() < PIN_BYTES {
        return Err(Refusal::TraceCut);
    }
    match address_of(pins_in(t)) {
        Some(_) => check_counted(t),
        None => Err(Refusal::BadStraps),
    }
}

#[tactic(auto, unfolding(arbiter::specs::OldTraces::converted, arbiter::specs::OldTraces::converted_number))]
fn check_room(t: &[u8], room: usize) -> Result<(), Refusal>
    ensures { number_of result ≡ converted_number t.now room }
{
    check_old(t)?;
    if room < t.len() + KIND_BYTES {
        return Err(Refusal::NoRoom);
    }
    Ok(())
}

// ---- the trace

// An old trace with its section added: its length, and its bytes in the lent buffer. A refusal leaves the buffer as it was.
#[tactic(auto, using(crate::proofs::Laws::zero_fits, crate::proofs::Laws::refused_converted, crate::proofs::Laws::refused_buffer, crate::proofs::Laws::all_converted, crate::proofs::Laws::all_stored))]
pub fn convert_trace(t: &[u8], out: &mut [u8]) -> Result<usize, Refusal>
    ensures { (written_of result ≡ conversion t.now out.old) × (out.new ≡ buffer_converted t.now out.old) }
{
    check_room(t, out.len())?;
    put_bytes(out, 0, t);
    put_kind(out, count_in(t), Kind::Pca9641);
    Ok(t.len() + KIND_BYTES)
}
