// A trace run event by event into a lent answer buffer. It is read from its bytes, or refused by number, in `reading`.
#![tactic(auto)]

mod playing;
mod raws;
pub mod reading;
mod sides;
pub mod ticks;
mod turns;

ghost use Rattle.std.specs.Prelude.{◌≡◌};
ghost use Rattle.arbiter.specs.Traces.{report, buffer_after, ran, buffer_ran};
ghost use Rattle.light.specs.Light.{Settled};
ghost use Rattle.traces.specs.Bodies.{with_room, ran_of, untraced, report_of_run, head_of, unanswered, head_of_run};

use arbiter::{Device, Kind, Refusal};
use format::{EVENT_BYTES, events_in};
use playing::{play, step_each};
use reading::read_trace;
use sides::is_settled;
use step::fresh;

// What a run of raw events leaves: how many there were, and the device after them.
#[derive(Clone, Copy, PartialEq, Eq)]
pub struct Run {
    pub events: usize,
    pub device: Device,
}

// What a run of a trace tells: its address, how many events there were, and the device after them.
#[derive(Clone, Copy, PartialEq, Eq)]
pub struct Traced {
    pub address: u8,
    pub events: usize,
    pub device: Device,
}

// Why a trace is refused, and what is told of it all the same.
#[derive(Clone, Copy, PartialEq, Eq)]
pub struct Untraced {
    pub refusal: Refusal,
    pub told: Traced,
}

// Nothing was run: address 0, no events, and a fresh device of kind 0.
impl From<Refusal> for Untraced {
    ghost from_gives = { λ why u. u ≡ untraced why };

    fn from(why: Refusal) -> Untraced {
        Untraced {
            refusal: why,
            told: Traced {
                address: 0,
                events: 0,
                device: fresh(Kind::Pca9641),
            },
        }
    }
}

// What a run of a trace tells, with the kind of the device alone.
#[derive(Clone, Copy, PartialEq, Eq)]
pub struct Head {
    pub address: u8,
    pub events: usize,
    pub kind: Kind,
}

// Why a trace is refused, and what is told of it all the same, with the kind of the device alone.
#[derive(Clone, Copy, PartialEq, Eq)]
pub struct Unanswered {
    pub refusal: Refusal,
    pub told: Head,
}

impl From<Untraced> for Unanswered {
    ghost from_gives = { λ refused a. a ≡ unanswered refused };

    fn from(refused: Untraced) -> Unanswered {
        Unanswered {
            refusal: refused.refusal,
            told: Head {
                address: refused.told.address,
                events: refused.told.events,
                kind: refused.told.device.kind,
            },
        }
    }
}

// How many events these bytes are, where they are in fours and the answers have room.
fn events_with_room(events: &[u8], room: usize) -> Result<usize, Refusal>
    ensures { result ≡ with_room events.now room }
{
    if events.len() % EVENT_BYTES != 0 {
        return Err(Refusal::TraceCut);
    }
    let n = events.len() / EVENT_BYTES;
    if room / EVENT_BYTES < n {
        return Err(Refusal::NoRoom);
    }
    Ok(n)
}

// Raw events from any device, each answered in the lent buffer: the count of them and the device after them. Bytes that are not in fours,
// and a buffer without room for the answers, are refused and leave the buffer as it was. A device that tells that it is settled, as
// every one does that a run reached, goes the short way.
pub fn run_events(d: Device, events: &[u8], answers: &mut [u8]) -> Result<Run, Refusal>
    ensures { (ran_of d result ≡ ran d events.now answers.old) × (answers.new ≡ buffer_ran d events.now answers.old) }
{
    if is_settled(d) {
        return run_settled(d, events, answers);
    }
    let n = events_with_room(events, answers.len())?;
    let device = step_each(d, events, answers, n);
    Ok(Run { events: n, device })
}

// The same from a settled device, of which nobody asks whether it is. A caller knows that it is: see docs/PROMISES.md.
pub fn run_settled(d: Device, events: &[u8], answers: &mut [u8]) -> Result<Run, Refusal>
    requires { Settled d }
    ensures { (ran_of d result ≡ ran d events.now answers.old) × (answers.new ≡ buffer_ran d events.now answers.old) }
{
    let n = events_with_room(events, answers.len())?;
    // The part of the buffer that the answers fill: so each answer's place is known to be there without a test.
    let end = EVENT_BYTES * n;
    let device = play(d, events, &mut answers[..end], n);
    Ok(Run { events: n, device })
}

// A whole trace: what is told of it, and each answer in the lent buffer. A refused trace leaves the buffer as it was, and tells its refusal, no
// events and a fresh device of kind 0.
#[tactic(auto, using(crate::proofs::Accepted::refused_report, crate::proofs::Accepted::refused_buffer))]
pub fn run_trace(t: &[u8], out: &mut [u8]) -> Result<Traced, Untraced>
    ensures { (report_of_run result ≡ report t.now out.old) × (out.new ≡ buffer_after t.now out.old) }
{
    let read = read_trace(t, out.len())?;
    let run = run_settled(fresh(read.kind), events_in(t), out)?;
    Ok(Traced {
        address: read.address,
        events: run.events,
        device: run.device,
    })
}

// The same without the device, for callers that want the answers alone: the step is faster where nobody asks for the last state.
pub fn answer_trace(t: &[u8], out: &mut [u8]) -> Result<Head, Unanswered>
    ensures { (head_of_run result ≡ head_of (report t.now out.old)) × (out.new ≡ buffer_after t.now out.old) }
{
    let run = run_trace(t, out)?;
    Ok(Head {
        address: run.address,
        events: run.events,
        kind: run.device.kind,
    })
}
