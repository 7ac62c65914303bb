// Runs the forms that document 01 orders and no other program runs: a box looked up on two borrowed sheets, a row of records lent to one event, to
// a tick and to a reset of all, and a step on a device that stands here.
//
// Standard input has a board sheet and a house sheet of 15 bytes each, then events of five: a name, and the event's four. Printed are a line a
// box: its section and controller, and the two bytes that were found, or a dash; and a line an event: its five bytes, what the shelf answers, and
// what one device by itself answers to the same four bytes.
#![tactic(auto)]

ghost use Rattle.std.specs.Prelude.{◌++◌, OnOk};
ghost use Rattle.std.specs.Io.KnownBytes.{Appends};
ghost use Rattle.arbiter.specs.Listing.{hex2, space, newline};
ghost use Rattle.shelf.specs.Shelf.{ShelfStepped};

use arbiter::{Answer, Kind, Raw};
use arrayvec::ArrayVec;
use lent::step_standing;
use printing::{Hex, read_full};
use rows::{fresh_record, reset_all, route_event, tick_all};
use sheets::lookup::look_up;
use shelf::Record;
use std::io;
use std::io::Write;
use step::fresh;

const NAME: &str = "forms";

const TICK: u8 = 6;

const RESET: u8 = 8;

// A sheet, and a name with its event.
const SHEET_BYTES: usize = 15;

const NAMED_BYTES: usize = 5;

// The sheets and 64 events.
const MOST_BYTES: usize = 350;

// The shelf: a device of either kind.
const DEVICES: usize = 2;

// ---- printing

fn print_end<W: io::Write>(out: &mut W) -> io::Result<()>
    ensures { OnOk result (Appends (W.contents out.old) (W.contents out.new) newline) }
{
    writeln!(out)
}

// The four bytes of an answer, after a space.
fn print_answer<W: io::Write>(out: &mut W, a: Answer) -> io::Result<()>
    ensures { OnOk result (Appends (W.contents out.old) (W.contents out.new)
        (space ++ hex2 a.outcome ++ hex2 a.read ++ hex2 a.owner ++ hex2 a.lines)) }
{
    write!(
        out,
        " {}{}{}{}",
        Hex(a.outcome),
        Hex(a.read),
        Hex(a.owner),
        Hex(a.lines)
    )
}

fn print_event<W: io::Write>(out: &mut W, name: u8, r: Raw) -> io::Result<()>
    ensures { OnOk result (Appends (W.contents out.old) (W.contents out.new)
        (hex2 name ++ space ++ hex2 r.kind ++ hex2 r.x ++ hex2 r.y ++ hex2 r.z)) }
{
    write!(
        out,
        "{} {}{}{}{}",
        Hex(name),
        Hex(r.kind),
        Hex(r.x),
        Hex(r.y),
        Hex(r.z)
    )
}

// ---- the sheets

// A box, or a dash: a refusal hands back no byte.
fn print_box<'a, W: io::Write>(
    out: &mut W,
    board: &'a [u8],
    house: &'a [u8],
    section: u8,
    controller: u8,
) -> io::Result<()> {
    // The two digits and the space go out at once.
    let mut which = ArrayVec::<u8, 3>::new();
    write!(which, "{section:X}{controller:X} ")?;
    out.write_all(which.as_slice())?;
    match look_up(board, house, section, controller) {
        [first, second, ..] => write!(out, "{}{}", Hex(*first), Hex(*second))?,
        _ => write!(out, "-")?,
    }
    print_end(out)
}

// Every box there is, and one that is not.
fn print_boxes<'a, W: io::Write>(out: &mut W, board: &'a [u8], house: &'a [u8]) -> io::Result<()> {
    let boxes = [(0, 0), (0, 1), (1, 0), (1, 1), (2, 0), (2, 1), (3, 0)];
    for (section, controller) in boxes {
        print_box(out, board, house, section, controller)?;
    }
    Ok(())
}

// ---- the shelf: the row stands in a local, and is lent to the call

fn fresh_row() -> [Record; DEVICES] {
    let first = fresh_record(0x70, Kind::Pca9641);
    let second = fresh_record(0x71, Kind::Tpt29641);
    [first, second]
}

// A tick and a reset have calls of their own; whatever else comes, a TICK or RESET with other fields too, is routed. (A match, since these three
// calls are what this program is to run.)
fn on_shelf(row: &mut [Record; DEVICES], name: u8, r: Raw) -> Answer
    ensures { ShelfStepped row.old name r row.new result }
{
    match r {
        Raw {
            kind: TICK,
            x: 0,
            y: 0,
            z: 0,
        } => tick_all(row),
        Raw {
            kind: RESET,
            x: 0,
            y: 0,
            z: 0,
        } => reset_all(row),
        _ => route_event(row, name, r),
    }
}

// ---- the events

// An event's line: its five bytes, what the shelf answers, and what the device by itself answers.
fn print_step<W: io::Write>(
    out: &mut W,
    name: u8,
    r: Raw,
    shelf: Answer,
    alone: Answer,
) -> io::Result<()>
    ensures { OnOk result (Appends (W.contents out.old) (W.contents out.new)
        ((hex2 name ++ space ++ hex2 r.kind ++ hex2 r.x ++ hex2 r.y ++ hex2 r.z)
        ++ (space ++ hex2 shelf.outcome ++ hex2 shelf.read ++ hex2 shelf.owner ++ hex2 shelf.lines)
        ++ (space ++ hex2 alone.outcome ++ hex2 alone.read ++ hex2 alone.owner ++ hex2 alone.lines) ++ newline)) }
{
    print_event(out, name, r)?;
    print_answer(out, shelf)?;
    print_answer(out, alone)?;
    print_end(out)
}

fn run_events<W: io::Write>(out: &mut W, events: &[u8]) -> io::Result<()> {
    let mut row = fresh_row();
    let mut device = fresh(Kind::Pca9641);
    let (whole, _) = events.as_chunks::<NAMED_BYTES>();
    for &[name, kind, x, y, z] in whole {
        let r = Raw { kind, x, y, z };
        let answer = on_shelf(&mut row, name, r);
        let stepped = step_standing(device, r);
        device = stepped.device;
        print_step(out, name, r, answer, stepped.answer)?;
    }
    Ok(())
}

// ---- the program

// What is no two sheets has no box and no event.
fn run<W: io::Write>(out: &mut W, input: &[u8]) -> io::Result<()> {
    if input.len() < 2 * SHEET_BYTES {
        return Ok(());
    }
    let board = &input[0..SHEET_BYTES];
    let house = &input[SHEET_BYTES..2 * SHEET_BYTES];
    let events = &input[2 * SHEET_BYTES..];
    print_boxes(out, board, house)?;
    run_events(out, events)
}

fn run_forms<R: io::Read, W: io::Write>(from: &mut R, out: &mut W) -> io::Result<()> {
    let mut input = [0u8; MOST_BYTES];
    let n = read_full(from, &mut input)?;
    run(out, &input[..n])
}

fn main(rt: HostRuntime) {
    if let Err(e) = run_forms(&mut rt.stdin(), &mut rt.stdout()) {
        let _ = eprintln!(rt; "{NAME}: {e}");
    }
}
