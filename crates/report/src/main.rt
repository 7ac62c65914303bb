// The bus share report (request #112). On standard input each trace follows its length in two bytes, low first. It prints a line a
// controller: its number, and the ticks that it owned the bus, was connected and waited. Past 65,535 traces a line R6 follows.
#![tactic(auto)]

ghost use Rattle.std.specs.Prelude.{◌≡◌, ◌<◌, OnOk};
ghost use Rattle.std.specs.Io.KnownBytes.{Appends};
ghost use Rattle.report.specs.Input.{length_in};
ghost use Rattle.report.specs.Report.{line, report_text};

use arrayvec::ArrayVec;
use printing::read_full;
use share::{MOST_TRACES, Totals, add_trace, empty_totals};
use std::io;

const NAME: &str = "report";

// The largest length that two bytes hold.
const MOST_BYTES: usize = 65535;

// The longest text: two lines of 65 bytes, and R6 with its line end.
const TEXT_ROOM: usize = 133;

// The totals of what was read: has a trace come past the last that is taken? (A flag, since the totals are printed in either case.)
#[derive(Clone, Copy)]
struct Read {
    totals: Totals,
    past: bool,
}

// ---- reading

// A trace's length, from the two bytes before it. No contract can say which bytes a read finds, so the reading cites the definition here.
fn length_of(head: [u8; 2]) -> usize
    ensures { (result ≡ length_in head) × (result < 65536) }
{
    usize::from(u16::from_le_bytes(head))
}

// The input ends inside a length or a trace: one trace that is refused with 5, as one without a byte is.
fn add_cut(mut totals: Totals) -> Read {
    let _ = add_trace(&mut totals, &[]);
    Read {
        totals,
        past: false,
    }
}

// All traces, one after the other through one buffer. Past 65,535 traces nothing is counted, whatever comes: what is left of the input is not read.
fn read_all<R: io::Read>(from: &mut R) -> io::Result<Read> {
    let mut input = [0u8; MOST_BYTES];
    let mut totals = empty_totals();
    // A proved loop has to end, and nothing says that an input does: no run uses up this number of turns.
    for _ in 0..u64::MAX {
        let mut head = [0u8; 2];
        let got = read_full(from, &mut head)?;
        if got == 0 {
            break;
        }
        if MOST_TRACES <= totals.traces {
            return Ok(Read { totals, past: true });
        }
        if got < head.len() {
            return Ok(add_cut(totals));
        }
        let wanted = length_of(head);
        let n = read_full(from, &mut input[..wanted])?;
        if n < wanted {
            return Ok(add_cut(totals));
        }
        // A refused trace is in the totals too.
        let _ = add_trace(&mut totals, &input[..wanted]);
    }
    Ok(Read {
        totals,
        past: false,
    })
}

// ---- printing

// A controller's line: its number, and its ticks.
fn print_line<W: io::Write>(
    out: &mut W,
    m: u8,
    owned: u64,
    connected: u64,
    waited: u64,
) -> io::Result<()>
    requires { m < 10 }
    ensures { OnOk result (Appends (W.contents out.old) (W.contents out.new) (line m owned connected waited)) }
{
    writeln!(out, "{m} {owned} {connected} {waited}")
}

fn print_lines<W: io::Write>(out: &mut W, x: Totals, past: bool) -> io::Result<()>
    ensures { OnOk result (Appends (W.contents out.old) (W.contents out.new) (report_text x past)) }
{
    print_line(out, 0, x.owned0, x.connected0, x.waited0)?;
    print_line(out, 1, x.owned1, x.connected1, x.waited1)?;
    if past {
        writeln!(out, "R6")?;
    }
    Ok(())
}

// The text goes out at once.
fn print_report<W: io::Write>(out: &mut W, x: Totals, past: bool) -> io::Result<()>
    ensures { OnOk result (Appends (W.contents out.old) (W.contents out.new) (report_text x past)) }
{
    let mut text = ArrayVec::<u8, TEXT_ROOM>::new();
    print_lines(&mut text, x, past)?;
    out.write_all(text.as_slice())
}

fn run<R: io::Read, W: io::Write>(from: &mut R, out: &mut W) -> io::Result<()> {
    let read = read_all(from)?;
    print_report(out, read.totals, read.past)
}

fn main(rt: HostRuntime) {
    if let Err(e) = run(&mut rt.stdin(), &mut rt.stdout()) {
        let _ = eprintln!(rt; "{NAME}: {e}");
    }
}
