// All orders of two start-up scripts (request #109), each from a fresh PCA9641: the third answer byte after each order's last event.
#![tactic(auto)]

ghost use Rattle.std.specs.Prelude.{◌≤◌, ◌≡◌, length};
ghost use Rattle.arbiter.specs.Effects.{power_up};
ghost use Rattle.arbiter.specs.Steps.{owner_byte};
ghost use Rattle.arbiter.specs.Traces.{event_bytes, raw_in};
ghost use Rattle.arbiter.specs.declared.Kind.TheVariants.{Pca9641};
ghost use Rattle.orders.specs.Orders.{number_of_orders};
ghost use Rattle.orders.specs.Call.{most_scripted, script_in, script_fault_number, listed_of, orders_listed, orders_buffer};
ghost use Rattle.orders.specs.Walk.{reached_with, reached, bytes_from, pour};

use arbiter::{Device, Kind};
use format::{EVENT_BYTES, event_at};
use step::{fresh, step_device};

// A script has so many events at most.
const MOST_SCRIPTED: usize = 6;

// A point on the way through the orders: the device, and the third byte of the last answer.
#[derive(Clone, Copy, PartialEq, Eq)]
pub struct Reached {
    pub device: Device,
    pub byte: u8,
}

// Why no order is listed.
#[derive(Clone, Copy, PartialEq, Eq)]
pub enum ScriptFault {
    NotInFours,
    TooLong,
    NoRoom,
}

pub fn script_fault_number(f: ScriptFault) -> u8
    ensures { result ≡ script_fault_number f }
{
    match f {
        ScriptFault::NotInFours => 5,
        ScriptFault::TooLong => 6,
        ScriptFault::NoRoom => 9,
    }
}

// ---- how many orders there are

// Of m events and n, by which script's event comes first.
fn orders_of(m: usize, n: usize) -> usize
    requires { (m ≤ most_scripted) × (n ≤ most_scripted) }
    ensures { result ≡ number_of_orders m n }
{
    if m == 0 {
        return 1;
    }
    if n == 0 {
        return 1;
    }
    orders_of(m - 1, n) + orders_of(m, n - 1)
}

// ---- through the orders

fn reached_with(device: Device, byte: u8) -> Reached
    ensures { result ≡ reached_with device byte }
{
    Reached { device, byte }
}

// The third byte of a fresh device's answer is 0: nobody owns, the switch is apart and there is no claim.
fn start() -> Reached
    ensures { result ≡ reached_with (power_up Pca9641) (owner_byte (power_up Pca9641)) }
{
    reached_with(fresh(Kind::Pca9641), 0)
}

// One event more, the first of these.
fn reach(c: Reached, script: &[u8]) -> Reached
    requires { event_bytes ≤ length script.now }
    ensures { result ≡ reached c (raw_in script.now) }
{
    let s = step_device(c.device, event_at(script, 0));
    reached_with(s.device, s.answer.owner)
}

// The byte of each order of what is left of the two scripts, until the buffer is full: how many. With each event taken there is one less left in
// both scripts together. The device goes by value, so a common beginning is stepped once.
fn list_from(c: Reached, script0: &[u8], script1: &[u8], out: &mut [u8]) -> usize
    ensures listed { (out.new, result) ≡ pour (length out.old) (out.old, 0) (bytes_from c (script_in script0.now) (script_in script1.now)) }
    ensures within { result ≤ length out.old }
{
    if out.len() == 0 {
        return 0;
    }
    if EVENT_BYTES <= script0.len() {
        let by0 = reach(c, script0);
        let next = list_from(by0, &script0[EVENT_BYTES..], script1, out);
        if EVENT_BYTES <= script1.len() {
            let by1 = reach(c, script1);
            return next + list_from(by1, script0, &script1[EVENT_BYTES..], &mut out[next..]);
        }
        return next;
    }
    if script1.len() < EVENT_BYTES {
        out[0] = c.byte;
        return 1;
    }
    let by1 = reach(c, script1);
    list_from(by1, script0, &script1[EVENT_BYTES..], out)
}

// ---- the call

// The third answer byte after the last event of each order of two scripts, script 0's next event first at each point, in the lent buffer,
// until the limit; how many were listed, or why none.
pub fn list_orders(
    script0: &[u8],
    script1: &[u8],
    limit: usize,
    out: &mut [u8],
) -> Result<usize, ScriptFault>
    ensures { (listed_of result ≡ orders_listed script0.now script1.now limit out.old) × (out.new ≡ orders_buffer script0.now script1.now limit out.old) }
{
    if (script0.len() % EVENT_BYTES == 0) & (script1.len() % EVENT_BYTES == 0) {
        let m = script0.len() / EVENT_BYTES;
        let n = script1.len() / EVENT_BYTES;
        if (MOST_SCRIPTED < m) | (MOST_SCRIPTED < n) {
            return Err(ScriptFault::TooLong);
        }
        let count = limit.min(orders_of(m, n));
        if out.len() < count {
            return Err(ScriptFault::NoRoom);
        }
        Ok(list_from(start(), script0, script1, &mut out[..count]))
    } else {
        Err(ScriptFault::NotInFours)
    }
}
