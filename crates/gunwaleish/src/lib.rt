// The library for Rust and C: traces, captures, listeners, order sheets, images, shelves, orders of scripts, totals of the bus share and straps over numbers
// and slices. A slice passes as a pointer and then a length. (Numbers in place of enums and errors, and each parameter by itself: the C interface,
// c/gunwaleish.h, fixes every name and signature here.) Each call hands on to the crate of its subject, which packs what was found in one number.
#![tactic(auto)]

ghost use Rattle.std.specs.Prelude.{◌≡◌, length};
ghost use Rattle.arbiter.specs.Straps.{address_of, straps_of};
ghost use Rattle.arbiter.specs.Traces.{report, buffer_after};
ghost use Rattle.arbiter.specs.OldTraces.{conversion, buffer_converted};
ghost use Rattle.arbiter.specs.Writing.{written, buffer_written};
ghost use Rattle.arbiter.specs.Listing.{listing};
ghost use Rattle.text.specs.Written.{text_after};
ghost use Rattle.capture.specs.Import.{imported, imported_buffer};
ghost use Rattle.layout.specs.Images.{image_answer, image_after, fresh_number, fresh_after, shown};
ghost use Rattle.imaging.specs.Advancing.{image_told, image_advanced};
ghost use Rattle.orders.specs.Call.{orders_listed, orders_buffer};
ghost use Rattle.rowimage.specs.Calls.{row_answer, row_buffer, row_shown};
ghost use Rattle.rowimage.specs.Slots.{fresh_row_number, fresh_row_buffer};
ghost use Rattle.sheets.specs.Sheets.{place_of};
ghost use Rattle.sheets.specs.Settings.{ordered, ordered_buffer};
ghost use Rattle.sheets.specs.Waits.{wait_of};
ghost use Rattle.share.specs.Lent.{lent_number, lent_after, join_number, join_after};
ghost use Rattle.watchlayout.specs.Calls;
ghost use Rattle.watchlayout.specs.Calls.{heeded, heeded_after};
ghost use Rattle.packing.specs.Packed.{packed_answer};
ghost use Rattle.packed_captures.specs.Packed.{packed_import};
ghost use Rattle.packed_images.specs.Packed.{packed_shown, packed_told};
ghost use Rattle.packed_orders.specs.Packed.{packed_listed};
ghost use Rattle.packed_sheets.specs.Packed.{packed_box, packed_order, packed_wait};
ghost use Rattle.packed_straps.specs.Packed.{packed_address, packed_pins};
ghost use Rattle.packed_traces.specs.Packed.{packed_report, packed_written};
ghost use Rattle.packed_watches.specs.Packed.{at_once, packed_heeded};
ghost use Rattle.gunwaleish.specs.Version.{version};

// ---- the version

const MAJOR: u32 = 1;

const MINOR: u32 = 1;

const PATCH: u32 = 0;

// The version of this library, in one number.
#[unsafe(no_mangle)]
pub extern "C" fn gunwaleish_version() -> u32
    ensures { result ≡ version }
{
    65536 * MAJOR + 256 * MINOR + PATCH
}

// ---- traces

// A whole trace into a lent answer buffer.
#[unsafe(no_mangle)]
pub extern "C" fn gunwaleish_run_trace(t: &[u8], out: &mut [u8]) -> u64
    ensures { (result ≡ packed_report (report t.now out.old)) × (out.new ≡ buffer_after t.now out.old) }
{
    packed_traces::run_packed(t, out)
}

// The trace of four pins, a kind of part and some events into a lent buffer.
#[unsafe(no_mangle)]
pub extern "C" fn gunwaleish_write_trace(
    ad3: u8,
    ad2: u8,
    ad1: u8,
    ad0: u8,
    kind: u8,
    events: &[u8],
    out: &mut [u8],
) -> u64
    ensures { (result ≡ packed_written (written (record { ad3 = ad3; ad2 = ad2; ad1 = ad1; ad0 = ad0 }) kind events.now out.old)) × (out.new ≡ buffer_written (record { ad3 = ad3; ad2 = ad2; ad1 = ad1; ad0 = ad0 }) kind events.now out.old) }
{
    packed_traces::write_packed(ad3, ad2, ad1, ad0, kind, events, out)
}

// A trace from before the kind of part, with the section of a PCA9641 added, into a lent buffer.
#[unsafe(no_mangle)]
pub extern "C" fn gunwaleish_convert_trace(old: &[u8], out: &mut [u8]) -> u64
    ensures { (result ≡ packed_written (conversion old.now out.old)) × (out.new ≡ buffer_converted old.now out.old) }
{
    packed_traces::convert_packed(old, out)
}

// The listing of a trace into a lent buffer: its length, and the text where it fits.
#[unsafe(no_mangle)]
pub extern "C" fn gunwaleish_listing(t: &[u8], text: &mut [u8]) -> usize
    ensures { (result ≡ length (listing t.now)) × (text.new ≡ text_after t.now text.old) }
{
    text::list_trace(t, text)
}

// ---- captures

// The events of a capture, for a device of this address, into a lent buffer.
#[unsafe(no_mangle)]
pub extern "C" fn gunwaleish_import_capture(samples: &[u8], address: u8, events: &mut [u8]) -> u64
    ensures { (result ≡ packed_import (imported address samples.now events.old)) × (events.new ≡ imported_buffer address samples.now events.old) }
{
    packed_captures::import_packed(samples, address, events)
}

// ---- a listener in a lent buffer

// A fresh listener for a device of this kind and address, with so many samples a TICK, with or without the bus below.
#[unsafe(no_mangle)]
pub extern "C" fn gunwaleish_watch_fresh(
    kind: u8,
    address: u8,
    every: u32,
    below: u8,
    watch: &mut [u8],
) -> u32
    ensures { (result ≡ Calls.fresh_number kind address below watch.old) × (watch.new ≡ Calls.fresh_after kind address every below watch.old) }
{
    packed_watches::fresh_packed(kind, address, every, below, watch)
}

// Samples heard by a listener, up to the first that has something to tell, and how many were taken.
#[unsafe(no_mangle)]
pub extern "C" fn gunwaleish_watch_listen(samples: &[u8], watch: &mut [u8]) -> u64
    ensures { (result ≡ packed_heeded (heeded (at_once samples.now) watch.old)) × (watch.new ≡ heeded_after (at_once samples.now) watch.old) }
{
    packed_watches::listen_packed(samples, watch)
}

// ---- order sheets

// Where the box of a section and a controller is taken from, of a board sheet and a house sheet.
#[unsafe(no_mangle)]
pub extern "C" fn gunwaleish_sheet_box(
    board: &[u8],
    house: &[u8],
    section: u8,
    controller: u8,
) -> u64
    ensures { result ≡ packed_box (place_of section controller board.now house.now) }
{
    packed_sheets::packed_box(board, house, section, controller)
}

// The twelve events that a board sheet and a house sheet order, into a lent buffer.
#[unsafe(no_mangle)]
pub extern "C" fn gunwaleish_sheet_events(board: &[u8], house: &[u8], events: &mut [u8]) -> u64
    ensures { (result ≡ packed_order (ordered board.now house.now events.old)) × (events.new ≡ ordered_buffer board.now house.now events.old) }
{
    packed_sheets::packed_events(board, house, events)
}

// How long a controller can wait by a board sheet and a house sheet, on a part of this kind.
#[unsafe(no_mangle)]
pub extern "C" fn gunwaleish_sheet_wait(board: &[u8], house: &[u8], controller: u8, kind: u8) -> u64
    ensures { result ≡ packed_wait (wait_of controller kind board.now house.now) }
{
    packed_sheets::packed_wait(board, house, controller, kind)
}

// ---- a device as an image in a lent buffer

// A fresh image of this kind of part.
#[unsafe(no_mangle)]
pub extern "C" fn gunwaleish_image_fresh(kind: u8, image: &mut [u8]) -> u32
    ensures { (result ≡ fresh_number kind image.old) × (image.new ≡ fresh_after kind image.old) }
{
    packed_images::fresh_packed(kind, image)
}

// One event on an image, by its four bytes.
#[unsafe(no_mangle)]
pub extern "C" fn gunwaleish_image_step(event: u8, x: u8, y: u8, z: u8, image: &mut [u8]) -> u32
    ensures { (result ≡ packed_answer (image_answer image.old (record { kind = event; x = x; y = y; z = z }))) × (image.new ≡ image_after image.old (record { kind = event; x = x; y = y; z = z })) }
{
    packed_images::step_packed(event, x, y, z, image)
}

// So many ticks on an image, at once.
#[unsafe(no_mangle)]
pub extern "C" fn gunwaleish_image_advance(ticks: u32, image: &mut [u8]) -> u32
    ensures { (result ≡ packed_told (image_told ticks image.old)) × (image.new ≡ image_advanced ticks image.old) }
{
    packed_images::advance_packed(ticks, image)
}

// What a master reads of a register of an image, without an event.
#[unsafe(no_mangle)]
pub extern "C" fn gunwaleish_image_read(master: u8, register: u8, image: &[u8]) -> u32
    ensures { result ≡ packed_shown (shown master register image.now) }
{
    packed_images::read_packed(master, register, image)
}

// ---- a shelf's row in a lent buffer

// One event on the devices of a row, by its four bytes and the address or place that it names.
#[unsafe(no_mangle)]
pub extern "C" fn gunwaleish_shelf_step(
    name: u8,
    event: u8,
    x: u8,
    y: u8,
    z: u8,
    row: &mut [u8],
) -> u32
    ensures { (result ≡ packed_answer (row_answer row.old name (record { kind = event; x = x; y = y; z = z }))) × (row.new ≡ row_buffer row.old name (record { kind = event; x = x; y = y; z = z })) }
{
    packed_shelves::step_packed(name, event, x, y, z, row)
}

// The device at a place as it stands, without an event.
#[unsafe(no_mangle)]
pub extern "C" fn gunwaleish_shelf_show(place: u8, row: &[u8]) -> u32
    ensures { result ≡ packed_answer (row_shown place row.now) }
{
    packed_shelves::show_packed(place, row)
}

// A fresh row, from an address and a kind of part for each place.
#[unsafe(no_mangle)]
pub extern "C" fn gunwaleish_shelf_fresh(slots: &[u8], row: &mut [u8]) -> u32
    ensures { (result ≡ fresh_row_number slots.now row.old) × (row.new ≡ fresh_row_buffer slots.now row.old) }
{
    packed_shelves::fresh_packed(slots, row)
}

// ---- the orders of two scripts

// The byte of each order of two scripts into a lent buffer, until the limit.
#[unsafe(no_mangle)]
pub extern "C" fn gunwaleish_list_orders(
    script0: &[u8],
    script1: &[u8],
    limit: usize,
    out: &mut [u8],
) -> u64
    ensures { (result ≡ packed_listed (orders_listed script0.now script1.now limit out.old)) × (out.new ≡ orders_buffer script0.now script1.now limit out.old) }
{
    packed_orders::list_packed(script0, script1, limit, out)
}

// ---- the bus share: 17 totals in a lent buffer

// A trace added to the totals.
#[unsafe(no_mangle)]
pub extern "C" fn gunwaleish_share_add(trace: &[u8], totals: &mut [u64]) -> u32
    ensures { (result ≡ lent_number totals.old trace.now) × (totals.new ≡ lent_after totals.old trace.now) }
{
    packed_shares::add_packed(trace, totals)
}

// The totals of other traces joined to the totals.
#[unsafe(no_mangle)]
pub extern "C" fn gunwaleish_share_join(other: &[u64], totals: &mut [u64]) -> u32
    ensures { (result ≡ join_number totals.old other.now) × (totals.new ≡ join_after totals.old other.now) }
{
    packed_shares::join_packed(other, totals)
}

// ---- straps

// The address of four pins.
#[unsafe(no_mangle)]
pub extern "C" fn gunwaleish_address_of(ad3: u8, ad2: u8, ad1: u8, ad0: u8) -> u32
    ensures { result ≡ packed_address (address_of (record { ad3 = ad3; ad2 = ad2; ad1 = ad1; ad0 = ad0 })) }
{
    packed_straps::packed_address(ad3, ad2, ad1, ad0)
}

// The pins of an address.
#[unsafe(no_mangle)]
pub extern "C" fn gunwaleish_pins_of(address: u8) -> u64
    ensures { result ≡ packed_pins (straps_of address) }
{
    packed_straps::packed_pins(address)
}
