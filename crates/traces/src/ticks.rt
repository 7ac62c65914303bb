// TICKs in a row, which the loop over events takes together (request #114).
ghost use Rattle.std.specs.Prelude.{◌+◌, ◌-◌, ◌*◌, ◌≤◌, ◌<◌, ◌≡◌, length};
ghost use Rattle.arbiter.specs.Traces.{event_bytes};
ghost use Rattle.format.specs.Places.{event_at, with_answer};
ghost use Rattle.traces.specs.Ticks.{is_tick_raw, AllTicks, with_same};

use arbiter::{Answer, Raw};
use format::EVENT_BYTES;

// The four bytes as one number, low first: one load and one test in machine code.
pub fn is_tick(r: Raw) -> bool
    ensures { result ≡ is_tick_raw r }
{
    u32::from_le_bytes([r.kind, r.x, r.y, r.z]) == 6
}

// Event i of these bytes, which have it, is a TICK. It and the next function do what `event_at` and `put_answer` do without their test of the
// place: play_ticks has made it.
fn is_tick_at(events: &[u8], i: usize) -> bool
    requires { event_bytes * (i + 1) ≤ length events.now }
    ensures { result ≡ is_tick_raw (event_at i events.now) }
{
    let from = EVENT_BYTES * i;
    is_tick(Raw {
        kind: events[from],
        x: events[from + 1],
        y: events[from + 2],
        z: events[from + 3],
    })
}

// The answer to event i at its place, which the buffer has.
fn put_there(answers: &mut [u8], i: usize, a: Answer)
    requires { event_bytes * (i + 1) ≤ length answers.old }
    ensures { answers.new ≡ with_answer answers.old i a }
{
    let at = EVENT_BYTES * i;
    answers[at] = a.outcome;
    answers[at + 1] = a.read;
    answers[at + 2] = a.owner;
    answers[at + 3] = a.lines;
}

// Event i and the TICKs right after it, up to event last, answered alike: the event that they end at. They are looked at two by two, and no place is
// tested, since the loop is as short as a TICK.
pub(crate) fn play_ticks(
    events: &[u8],
    answers: &mut [u8],
    i: usize,
    last: usize,
    a: Answer,
) -> usize
    requires { (i < last) × (event_bytes * last ≤ length events.now) × (event_bytes * last ≤ length answers.old) }
    ensures { (i < result) × (result ≤ last) × AllTicks (i + 1) result events.now × (answers.new ≡ with_same answers.old i (result - i) a) }
{
    put_there(answers, i, a);
    let mut at: usize = i + 1;
    while at + 1 < last {
        if is_tick_at(events, at) {
            put_there(answers, at, a);
        } else {
            return at;
        }
        if is_tick_at(events, at + 1) {
            put_there(answers, at + 1, a);
        } else {
            return at + 1;
        }
        at += 2;
    }
    if at < last {
        if is_tick_at(events, at) {
            put_there(answers, at, a);
            return at + 1;
        }
    }
    at
}
