// A shelf's row as one lent buffer of bytes (request #110): one event on it and a look at a place; a fresh row is in `slots`. Whom an event
// reaches is decided by functions on plain values in the crate `routing`; here the buffer is tested, looked through and stepped, record by
// record.
#![tactic(auto)]

pub mod slots;

ghost use Rattle.std.specs.Prelude.{◌+◌, ◌*◌, ◌≤◌, ◌≡◌, true, length, drop};
ghost use Rattle.arbiter.specs.Steps.{answer};
ghost use Rattle.layout.specs.Layout.{device_in};
ghost use Rattle.layout.specs.Images.{is_image, image_answer, image_after};
ghost use Rattle.shelf.specs.Shelf.{shelf_row, shelf_answer, shelf_show};
ghost use Rattle.routing.specs.Deciding.{seen_of};
ghost use Rattle.rows.specs.Sweeps.{carried_out};
ghost use Rattle.rowimage.specs.declared.RowFault.TheVariants.{Shelf};
ghost use Rattle.rowimage.specs.Row.{record_bytes, record_count, bytes_of_row, image_in, records_in, images_fit, row_number, is_row};
ghost use Rattle.rowimage.specs.Faults.{row_fault_number, number_of};
ghost use Rattle.rowimage.specs.Calls.{row_answer, row_buffer, row_shown};
ghost use Rattle.rowimage.specs.Walk.{with_image, told_by};

use arbiter::{Answer, Raw};
use image::{check_image, read_image};
use imaging::{refused_by, step_image};
use layout::IMAGE_LENGTH;
use routing::{Seen, fault_answer, fault_number, no_answer, plan_of, reach_for, see, start};
use shelf::{Fault, Naming, Reach};
use showing::show_device;
use std::ops::Range;

// A record has so many bytes: its address, and the image of its device.
pub const RECORD_BYTES: usize = 39;

// Why a buffer holds no row, or slots make none.
#[derive(Clone, Copy, PartialEq, Eq)]
pub enum RowFault {
    WrongLength,
    OutOfRange,
    UnknownKind,
    Shelf(Fault),
}

impl From<Fault> for RowFault {
    ghost from_gives = { λ f r. r ≡ Shelf f };

    fn from(f: Fault) -> RowFault {
        RowFault::Shelf(f)
    }
}

fn row_fault_number(f: RowFault) -> u8
    ensures { result ≡ row_fault_number f }
{
    match f {
        RowFault::WrongLength => 9,
        RowFault::OutOfRange => 16,
        RowFault::UnknownKind => 3,
        RowFault::Shelf(f) => fault_number(f),
    }
}

// 0 where nothing is refused.
pub fn number_of(r: Result<(), RowFault>) -> u8
    ensures { result ≡ number_of r }
{
    match r {
        Ok(_) => 0,
        Err(f) => row_fault_number(f),
    }
}

// ---- the buffer

#[tactic(auto, using(layout::proofs::Once::asked))]
fn is_good(image: &[u8]) -> bool
    ensures { result ≡ is_image image.now }
{
    check_image(image).is_ok()
}

// The image of every record is in range.
fn images_fit(row: &[u8]) -> bool
    ensures { result ≡ images_fit (record_count row.now) row.now }
{
    for record in row.chunks_exact(RECORD_BYTES) {
        if !is_good(&record[1..]) {
            return false;
        }
    }
    true
}

// A row has records whose images are in range: a length that is no multiple of a record's is refused first.
fn check_row(row: &[u8]) -> Result<(), RowFault>
    ensures { number_of result ≡ row_number row.now }
{
    if row.len() % RECORD_BYTES == 0 {
        if images_fit(row) {
            Ok(())
        } else {
            Err(RowFault::OutOfRange)
        }
    } else {
        Err(RowFault::WrongLength)
    }
}

// The row looked at, address by address.
// One function over any iterator of addresses is no plainer than this loop: its clauses need `can_next`, `IsFinite` and `Drains`.
fn survey(row: &[u8], name: u8) -> Seen
    ensures { result ≡ seen_of name (records_in row.now) }
{
    let mut s = start(name);
    for place in row.chunks_exact(RECORD_BYTES) {
        s = see(s, place[0]);
    }
    s
}

// ---- one event

// The image at a place makes the step.
fn step_place(row: &mut [u8], i: usize, r: Raw) -> Answer
    requires { record_bytes * i + record_bytes ≤ length row.old }
    ensures { (result ≡ image_answer (image_in (drop (record_bytes * i) row.old)) r) × (row.new ≡ with_image i (image_after (image_in (drop (record_bytes * i) row.old)) r) row.old) }
{
    let from = RECORD_BYTES * i + 1;
    let end = from + IMAGE_LENGTH;
    step_image(&mut row[from..end], r)
}

// The answer that was told first stays.
fn told_by(told: Option<Answer>, now: Answer) -> Option<Answer>
    ensures { result ≡ told_by told now }
{
    told.or(Some(now))
}

// The records at these places make the step, one after the other. The first one answers.
// By place: of the parts that `chunks_exact_mut` lends, no promise says what they hold when the loop is over.
fn carry_out(row: &mut [u8], places: Range<usize>, r: Raw) -> Option<Answer>
    requires { (is_row row.old ≡ true) × (places.start ≤ places.end) × (places.end ≤ record_count row.old) }
    ensures { (row.new ≡ bytes_of_row (carried_out r places (records_in row.old)).0) × (result ≡ (carried_out r places (records_in row.old)).1) }
{
    let mut told = None;
    for i in places.start..places.end {
        let now = step_place(row, i, r);
        told = told_by(told, now);
    }
    told
}

fn route(row: &mut [u8], name: u8, r: Raw) -> Answer
    requires { is_row row.old ≡ true }
    ensures { (result ≡ shelf_answer (records_in row.old) name r) × (row.new ≡ bytes_of_row (shelf_row (records_in row.old) name r)) }
{
    match plan_of(survey(row, name), r.kind) {
        Ok(places) => carry_out(row, places, r).unwrap_or(no_answer()),
        Err(f) => fault_answer(f),
    }
}

// One event on a row: the answer, and the buffer holds the devices as they then are. The name is the address or the place that it names.
// Refused by 9 for a length that is no multiple of a record's, by 16 for an image with a field outside its range, and then as the shelf and
// document 01 refuse it. Refused, the buffer is left as it was.
pub fn step_row(row: &mut [u8], name: u8, r: Raw) -> Answer
    ensures { (result ≡ row_answer row.old name r) × (row.new ≡ row_buffer row.old name r) }
{
    match check_row(row) {
        Ok(_) => route(row, name, r),
        Err(f) => refused_by(row_fault_number(f)),
    }
}

// ---- a look at a place

fn show_place(row: &[u8], i: usize) -> Answer
    requires { record_bytes * i + record_bytes ≤ length row.now }
    ensures { result ≡ answer 0 0 (device_in (image_in (drop (record_bytes * i) row.now))) }
{
    let from = RECORD_BYTES * i + 1;
    let end = from + IMAGE_LENGTH;
    show_device(read_image(&row[from..end]))
}

// A place never reaches everyone.
// Two refusals and a place: each its own call.
fn show_in(row: &[u8], place: u8) -> Answer
    ensures { result ≡ shelf_show (records_in row.now) place }
{
    match reach_for(survey(row, place), Naming::APlace) {
        Ok(Reach::At(i)) => show_place(row, usize::from(i)),
        Ok(Reach::Everyone) => refused_by(0),
        Err(f) => fault_answer(f),
    }
}

// The device at a place as it stands: outcome 0, no byte read, owner and lines. Refused as an event that names this place.
pub fn show_row(row: &[u8], place: u8) -> Answer
    ensures { result ≡ row_shown place row.now }
{
    match check_row(row) {
        Ok(_) => show_in(row, place),
        Err(f) => refused_by(row_fault_number(f)),
    }
}
