// The settings that a complete pair of sheets orders for both masters, and the twelve events of that order. (`orders` is the crate of request
// #109: the orders of two scripts.)
ghost use Rattle.std.specs.Prelude.{◌+◌, ◌≤◌, ◌<◌, ◌≡◌, ◌++◌, [], ◌∷◌, length, drop};
ghost use Rattle.arbiter.specs.Marks.{command, write, stop};
ghost use Rattle.arbiter.specs.Writing.{raws_bytes};
ghost use Rattle.sheets.specs.Settings.{ticked_on_either, is_complete, value_at, setting_of, order_of, read_complete, read_order, control_byte, setting_events, order_events, ordered, ordered_buffer, order_told};

use crate::pair::{Pair, Sheet, pair_of};
use crate::sheet::check_pair;
use crate::{Fault, Order, Setting};

#[tactic(auto, unfolding(crate::specs::Settings::ticked_on_either))]
fn is_ticked_on_either(board: Sheet, house: Sheet, at: usize) -> bool
    requires { at < 15 }
    ensures { result ≡ ticked_on_either at board.entry.bytes.now house.entry.bytes.now }
{
    board.is_ticked(at) | house.is_ticked(at)
}

// Each sheet apart, and no pair: two callers share this one, and a pair would be put into memory for it.
#[tactic(auto, unfolding(crate::specs::Settings::is_complete))]
pub(crate) fn is_complete(board: Sheet, house: Sheet) -> bool
    ensures { result ≡ is_complete board.entry.bytes.now house.entry.bytes.now }
{
    is_ticked_on_either(board, house, 1)
        & is_ticked_on_either(board, house, 3)
        & is_ticked_on_either(board, house, 6)
        & is_ticked_on_either(board, house, 8)
        & is_ticked_on_either(board, house, 11)
        & is_ticked_on_either(board, house, 13)
}

// The value of a box that is ticked on one sheet or the other.
#[tactic(auto, unfolding(crate::specs::Settings::value_at))]
fn value_at(pair: Pair, at: usize) -> u8
    requires { at + 2 ≤ 15 }
    ensures { result ≡ value_at at pair.entry.board.bytes.now pair.entry.house.bytes.now }
{
    if pair.board.is_ticked(at) {
        pair.board.value(at)
    } else {
        pair.house.value(at)
    }
}

#[tactic(auto, unfolding(crate::specs::Settings::setting_of))]
pub(crate) fn setting_of(pair: Pair, controller: usize) -> Setting
    requires { controller < 2 }
    ensures { result ≡ setting_of controller pair.entry.board.bytes.now pair.entry.house.bytes.now }
{
    Setting {
        reserve: value_at(pair, 1 + 2 * controller),
        priority: value_at(pair, 6 + 2 * controller) == 1,
        idle: value_at(pair, 11 + 2 * controller) == 1,
    }
}

#[tactic(auto, unfolding(crate::specs::Settings::order_of))]
fn order_of(pair: Pair) -> Order
    ensures { result ≡ order_of pair.entry.board.bytes.now pair.entry.house.bytes.now }
{
    Order {
        master0: setting_of(pair, 0),
        master1: setting_of(pair, 1),
    }
}

#[tactic(auto, unfolding(crate::specs::Settings::read_complete))]
fn read_complete(pair: Pair, room: usize) -> Result<Order, Fault>
    ensures { result ≡ read_complete pair.entry.board.bytes.now pair.entry.house.bytes.now room }
{
    if !is_complete(pair.board, pair.house) {
        return Err(Fault::Unticked);
    }
    if room < 48 {
        return Err(Fault::NoRoom);
    }
    Ok(order_of(pair))
}

#[tactic(auto, unfolding(crate::specs::Settings::read_order))]
fn read_order(board: &[u8], house: &[u8], room: usize) -> Result<Order, Fault>
    ensures { result ≡ read_order board.now house.now room }
{
    check_pair(board, house)?;
    read_complete(pair_of(board, house), room)
}

// ---- its events

// The CONTR byte that is written for one master.
#[tactic(auto, unfolding(crate::specs::Settings::control_byte))]
fn control_byte(s: Setting) -> u8
    ensures { result ≡ control_byte s }
{
    0x01 + 0x80 * u8::from(s.priority) + 0x20 * u8::from(s.idle)
}

// An event of master m whose last field is unused. Byte by byte, since a microcontroller calls its runtime for a copy.
fn put_event(event: &mut [u8], kind: u8, m: u8, v: u8)
    requires { length event.old ≡ 4 }
    ensures { event.new ≡ kind ∷ m ∷ v ∷ 0 ∷ [] }
{
    event[0] = kind;
    event[1] = m;
    event[2] = v;
    event[3] = 0;
}

// Master m sets register p to v: COMMAND, WRITE, STOP, four bytes each.
fn put_register(events: &mut [u8], m: u8, p: u8, v: u8)
    requires { length events.old ≡ 12 }
    ensures { events.new ≡ raws_bytes (command m p ∷ write m v ∷ stop m ∷ []) }
{
    put_event(&mut events[..4], 0, m, p);
    put_event(&mut events[4..8], 1, m, v);
    put_event(&mut events[8..], 3, m, 0);
}

// The six events of one master: its reserve, then its CONTR.
fn put_setting(events: &mut [u8], m: u8, s: Setting)
    requires { length events.old ≡ 24 }
    ensures { events.new ≡ raws_bytes (setting_events m s) }
{
    put_register(&mut events[..12], m, 0x03, s.reserve);
    put_register(&mut events[12..], m, 0x01, control_byte(s));
}

#[tactic(auto, unfolding(crate::specs::Settings::order_events))]
fn put_order(events: &mut [u8], o: Order)
    requires { 48 ≤ length events.old }
    ensures { events.new ≡ raws_bytes (order_events o) ++ drop 48 events.old }
{
    put_setting(&mut events[..24], 0, o.master0);
    put_setting(&mut events[24..48], 1, o.master1);
}

// The twelve events that a complete pair of sheets orders, at the front of the lent buffer, and how many they are. A refusal writes nothing.
#[tactic(auto, using(crate::proofs::Complete::given_passed), unfolding(crate::specs::Settings::ordered, crate::specs::Settings::ordered_of, crate::specs::Settings::ordered_buffer, crate::specs::Settings::buffer_of))]
pub fn order_events(board: &[u8], house: &[u8], events: &mut [u8]) -> Result<usize, Fault>
    ensures told { order_told result ≡ ordered board.now house.now events.old }
    ensures written { events.new ≡ ordered_buffer board.now house.now events.old }
{
    let order = read_order(board, house, events.len())?;
    put_order(events, order);
    Ok(12)
}
