// Reads a trace from before the kind of part (#105) on standard input and writes it with the section of a PCA9641 added, or R and the number of
// its refusal.
#![tactic(auto)]

ghost use Rattle.std.specs.Prelude.{IfSome, OnOk, take};
ghost use Rattle.std.specs.Io.KnownBytes.{Appends};
ghost use Rattle.arbiter.specs.Traces.{most_bytes, refusal_number};
ghost use Rattle.convert.specs.Text.{refused_line, conversion_text};

use arbiter::Refusal;
use arrayvec::ArrayVec;
use converter::convert_trace;
use format::{MOST_BYTES, refusal_number};
use printing::read_full;
use std::io;
use std::io::Write;

const NAME: &str = "convert";

// The longest line of a refusal: R, two digits and the line end.
const LINE_ROOM: usize = 4;

// R and the number of the refusal, in decimal.
fn write_refusal<W: io::Write>(out: &mut W, refusal: Refusal) -> io::Result<()>
    ensures { OnOk result (Appends (W.contents out.old) (W.contents out.new) (refused_line (refusal_number refusal))) }
{
    let number = refusal_number(refusal);
    let mut line = ArrayVec::<u8, LINE_ROOM>::new();
    writeln!(line, "R{number}")?;
    out.write_all(line.as_slice())
}

fn write_conversion<W: io::Write>(out: &mut W, t: &[u8]) -> io::Result<()>
    ensures { OnOk result (Appends (W.contents out.old) (W.contents out.new) (conversion_text t.now)) }
{
    let mut trace = [0u8; MOST_BYTES];
    match convert_trace(t, &mut trace) {
        Ok(length) => out.write_all(&trace[..length]),
        Err(refusal) => write_refusal(out, refusal),
    }
}

// Where the bytes of the input are known, its first ones are the trace.
fn run<R: io::Read, W: io::Write>(from: &mut R, out: &mut W) -> io::Result<()>
    ensures { OnOk result (IfSome (R.remaining from.old) (λ xs. Appends (W.contents out.old) (W.contents out.new) (conversion_text (take most_bytes xs)))) }
{
    // The longest old trace is shorter than this by the section. More bytes than that are refused with 7, as they are.
    let mut input = [0u8; MOST_BYTES];
    let n = read_full(from, &mut input)?;
    write_conversion(out, &input[..n])
}

fn main(rt: HostRuntime) {
    if let Err(e) = run(&mut rt.stdin(), &mut rt.stdout()) {
        let _ = eprintln!(rt; "{NAME}: {e}");
    }
}
