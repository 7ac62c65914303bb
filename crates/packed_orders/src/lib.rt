// The orders of two start-up scripts for Rust and C: how many were listed packed in one number, their bytes in a lent buffer.
#![tactic(auto)]

ghost use Rattle.std.specs.Prelude.{◌≡◌};
ghost use Rattle.orders.specs.Call.{orders_listed, orders_buffer};
ghost use Rattle.packed_orders.specs.Packed.{packed_listed};

use orders::{list_orders, script_fault_number};

// The byte of each order of two scripts into a lent buffer, until the limit.
pub fn list_packed(script0: &[u8], script1: &[u8], limit: usize, out: &mut [u8]) -> u64
    ensures { (result ≡ packed_listed (orders_listed script0.now script1.now limit out.old)) × (out.new ≡ orders_buffer script0.now script1.now limit out.old) }
{
    match list_orders(script0, script1, limit, out) {
        Ok(count) => 256 * (count as u64),
        Err(f) => u64::from(script_fault_number(f)),
    }
}
