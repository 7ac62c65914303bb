// A fresh row, from slots of two bytes each: an address, and the number of a kind of part.
ghost use Rattle.std.specs.Prelude.{◌+◌, ◌*◌, ◌≤◌, ◌≡◌, true, length, drop};
ghost use Rattle.layout.specs.Images.{fresh_after};
ghost use Rattle.routing.specs.Deciding.{seen_of};
ghost use Rattle.shelf.specs.Runs.{fresh_row};
ghost use Rattle.rowimage.specs.Row.{record_bytes, bytes_of_row, image_in};
ghost use Rattle.rowimage.specs.Faults.{number_of};
ghost use Rattle.rowimage.specs.Slots.{slot_count, slots_to, kinds_known, row_of_slots, slots_number, is_laid_for, fresh_row_number, fresh_row_buffer};
ghost use Rattle.rowimage.specs.Walk.{with_image};

use crate::{RECORD_BYTES, RowFault};
use format::is_kind;
use imaging::fresh_image;
use layout::IMAGE_LENGTH;
use routing::{Seen, reach_for, see, start};
use shelf::Naming;

const SLOT_BYTES: usize = 2;

// ---- the slots

fn kinds_known(slots: &[u8]) -> bool
    ensures { result ≡ kinds_known (slot_count slots.now) slots.now }
{
    for slot in slots.chunks_exact(SLOT_BYTES) {
        if !is_kind(slot[1]) {
            return false;
        }
    }
    true
}

// Their addresses looked at, one after the other, as in `survey`. No name is looked for.
fn survey_slots(slots: &[u8]) -> Seen
    ensures { result ≡ seen_of 0 (row_of_slots slots.now) }
{
    let mut s = start(0);
    for slot in slots.chunks_exact(SLOT_BYTES) {
        s = see(s, slot[0]);
    }
    s
}

// As the shelf refuses a row, and then another kind.
fn check_slots(slots: &[u8]) -> Result<(), RowFault>
    ensures { number_of result ≡ slots_number slots.now }
{
    reach_for(survey_slots(slots), Naming::Nothing)?;
    if kinds_known(slots) {
        Ok(())
    } else {
        Err(RowFault::UnknownKind)
    }
}

// Slots in pairs, and 39 bytes of the row for each. The row's length is divided: so many slots times 39 might not fit.
fn is_laid_for(slots: usize, row: usize) -> bool
    ensures { result ≡ is_laid_for slots row }
{
    (slots % SLOT_BYTES == 0)
        & ((row % RECORD_BYTES == 0) & (row / RECORD_BYTES == slots / SLOT_BYTES))
}

// ---- the row

// The image of a fresh device of this kind at a place.
fn put_fresh(row: &mut [u8], i: usize, kind: u8)
    requires { record_bytes * i + record_bytes ≤ length row.old }
    ensures { row.new ≡ with_image i (fresh_after kind (image_in (drop (record_bytes * i) row.old))) row.old }
{
    let from = RECORD_BYTES * i + 1;
    let end = from + IMAGE_LENGTH;
    let _fresh = fresh_image(kind, &mut row[from..end]);
}

// By place: of the parts that `chunks_exact_mut` lends, no promise says what they hold when the loop is over.
fn put_slots(slots: &[u8], row: &mut [u8])
    requires { (length row.old ≡ record_bytes * slot_count slots.now) × (kinds_known (slot_count slots.now) slots.now ≡ true) }
    ensures { row.new ≡ bytes_of_row (fresh_row (slots_to (slot_count slots.now) slots.now)) }
{
    for i in 0..slots.len() / SLOT_BYTES {
        let slot = SLOT_BYTES * i;
        put_fresh(row, i, slots[slot + 1]);
        let at = RECORD_BYTES * i;
        row[at] = slots[slot];
    }
}

// A fresh row of these slots: each device after power-up in the buffer. Refused for slots that are not in pairs or a row without 39 bytes for each,
// then as the shelf refuses a row, then for another kind, and the buffer is left as it was.
pub fn fresh_row(slots: &[u8], row: &mut [u8]) -> Result<(), RowFault>
    ensures { (number_of result ≡ fresh_row_number slots.now row.old) × (row.new ≡ fresh_row_buffer slots.now row.old) }
{
    if is_laid_for(slots.len(), row.len()) {
        check_slots(slots)?;
        put_slots(slots, row);
        Ok(())
    } else {
        Err(RowFault::WrongLength)
    }
}
