// The bench: one standing device, lent to each event of the trace on standard input. It prints what the listing does.
#![tactic(auto)]

ghost use Rattle.std.specs.Prelude.{◌≤◌, ◌≡◌, ◌++◌, IfOk, IfSome, OnOk};
ghost use Rattle.arbiter.specs.Effects.{power_up};
ghost use Rattle.std.specs.Io.KnownBytes.{Appends};
ghost use Rattle.arbiter.specs.Steps.{run, answers_from};
ghost use Rattle.arbiter.specs.Listing.{head_line, answer_line, answer_lines, listing};
ghost use Rattle.arbiter.specs.Traces.{most_events, raws_in, event_count};
ghost use Rattle.format.specs.Places.{events_part, event_at, kind_in};

use arbiter::{Accepted, Answer, Device, Raw, Refusal};
use arrayvec::ArrayVec;
use format::{ANSWER_ROOM, MOST_BYTES, count_in, event_at, events_in, kind_at, kind_of};
use lent::step_lent;
use printing::{Hex, print_listing, read_full};
use std::io;
use std::io::Write;
use step::fresh;
use traces::reading::read_trace;

const NAME: &str = "bench";

// ---- printing: each line is put together and then written at once, since a stream has no buffer

// An answer's line, the longest one: eight digits and the line end.
const LINE_ROOM: usize = 9;

fn print_head<W: io::Write>(out: &mut W, address: u8, n: usize) -> io::Result<()>
    requires { n ≤ most_events }
    ensures { OnOk result (Appends (W.contents out.old) (W.contents out.new) (head_line address n)) }
{
    let high = (n / 256) as u8;
    let low = (n % 256) as u8;
    let mut line = ArrayVec::<u8, LINE_ROOM>::new();
    writeln!(line, "{} {}{}", Hex(address), Hex(high), Hex(low))?;
    out.write_all(line.as_slice())
}

fn print_answer<W: io::Write>(out: &mut W, a: Answer) -> io::Result<()>
    ensures { OnOk result (Appends (W.contents out.old) (W.contents out.new) (answer_line a)) }
{
    let mut line = ArrayVec::<u8, LINE_ROOM>::new();
    writeln!(
        line,
        "{}{}{}{}",
        Hex(a.outcome),
        Hex(a.read),
        Hex(a.owner),
        Hex(a.lines)
    )?;
    out.write_all(line.as_slice())
}

// ---- the standing device

// Power-up of the kind of part that a trace names.
fn fresh_for(t: &[u8]) -> Device
    ensures { result ≡ power_up (kind_in t.now) }
{
    fresh(kind_of(kind_at(t, count_in(t))))
}

// Event i of a trace.
fn event_of(t: &[u8], i: usize) -> Raw
    ensures { result ≡ event_at i (events_part t.now) }
{
    event_at(events_in(t), i)
}

// The first n events of a trace, each answered by a line. The device stands here from power-up on: each step has it lent, and leaves
// the new state in it. (n beside the trace: it is the count that the reader accepted, which the head prints too.)
fn drive<W: io::Write>(out: &mut W, t: &[u8], n: usize) -> io::Result<Device>
    requires { n ≤ event_count (events_part t.now) }
    ensures device { IfOk result (λ d. d ≡ run (kind_in t.now) (raws_in n (events_part t.now))) }
    ensures lines { OnOk result (Appends (W.contents out.old) (W.contents out.new)
        (answer_lines (answers_from (power_up (kind_in t.now)) (raws_in n (events_part t.now))))) }
{
    let mut standing = fresh_for(t);
    for i in 0..n {
        let r = event_of(t, i);
        let a = step_lent(&mut standing, r);
        print_answer(out, a)?;
    }
    Ok(standing)
}

// ---- the program

fn print_accepted<W: io::Write>(out: &mut W, t: &[u8], address: u8, n: usize) -> io::Result<()>
    requires { (n ≤ event_count (events_part t.now)) × (n ≤ most_events) }
    ensures { OnOk result (Appends (W.contents out.old) (W.contents out.new)
        (head_line address n ++ answer_lines (answers_from (power_up (kind_in t.now)) (raws_in n (events_part t.now))))) }
{
    print_head(out, address, n)?;
    drive(out, t, n)?;
    Ok(())
}

// A refused trace has no events to drive: its listing is its number.
fn print_trace<W: io::Write>(out: &mut W, t: &[u8]) -> io::Result<()>
    ensures { OnOk result (Appends (W.contents out.old) (W.contents out.new) (listing t.now)) }
{
    let read = read_trace(t, ANSWER_ROOM);
    match read {
        Err(_) => print_listing(out, t),
        Ok(
            Accepted {
                address: address,
                events: n,
                kind: _,
            },
        ) => print_accepted(out, t, address, n),
    }
}

// Where the bytes of the input are known, what is printed is their listing, however many they are.
fn run_bench<R: io::Read, W: io::Write>(from: &mut R, out: &mut W) -> io::Result<()>
    ensures { OnOk result (IfSome (R.remaining from.old) (λ xs. Appends (W.contents out.old) (W.contents out.new) (listing xs))) }
{
    // One byte more than the longest trace tells a longer input.
    let mut input = [0u8; MOST_BYTES + 1];
    let n = read_full(from, &mut input)?;
    print_trace(out, &input[..n])
}

fn main(rt: HostRuntime) {
    if let Err(e) = run_bench(&mut rt.stdin(), &mut rt.stdout()) {
        let _ = eprintln!(rt; "{NAME}: {e}");
    }
}
