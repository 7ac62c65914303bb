// Lists the trace on standard input: document 01's text on standard output, and for a refused trace a line on standard error that says why.
#![tactic(auto)]

mod why;

ghost use Rattle.std.specs.Prelude.{IfSome, OnOk};
ghost use Rattle.std.specs.Io.KnownBytes.{Appends};
ghost use Rattle.arbiter.specs.Listing.{listing};

use arbiter::{Accepted, Refusal};
use arrayvec::ArrayVec;
use format::{ANSWER_ROOM, MOST_BYTES};
use printing::{print_listing, read_full};
use std::io;
use std::io::Write;
use traces::reading::read_trace;
use why::Reason;

const NAME: &str = "listing";

// The longest reason on standard error, and the line end.
const REASON_ROOM: usize = 10;

fn say_if_refused<W: io::Write>(errors: &mut W, read: Result<Accepted, Refusal>) -> io::Result<()> {
    if let Err(refusal) = read {
        write!(errors, "refused: ")?;
        // Written at once, since a stream has no buffer.
        let mut reason = ArrayVec::<u8, REASON_ROOM>::new();
        writeln!(reason, "{}", Reason(refusal))?;
        errors.write_all(reason.as_slice())?;
    }
    Ok(())
}

// Where the bytes of the input are known, what is printed is their listing, however many they are.
fn run<R: io::Read, W: io::Write, E: io::Write>(
    from: &mut R,
    out: &mut W,
    errors: &mut E,
) -> io::Result<()>
    ensures { OnOk result (IfSome (R.remaining from.old) (λ xs. Appends (W.contents out.old) (W.contents out.new) (listing xs))) }
{
    // One byte more than the longest trace tells a longer input, which lists as this beginning does (text/proofs/Long.antt).
    let mut input = [0u8; MOST_BYTES + 1];
    let n = read_full(from, &mut input)?;
    print_listing(out, &input[..n])?;
    say_if_refused(errors, read_trace(&input[..n], ANSWER_ROOM))
}

fn main(rt: HostRuntime) {
    if let Err(e) = run(&mut rt.stdin(), &mut rt.stdout(), &mut rt.stderr()) {
        let _ = eprintln!(rt; "{NAME}: {e}");
    }
}
