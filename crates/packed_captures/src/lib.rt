// Captures for Rust and C: what an import tells packed in one number, its events in a lent buffer.
#![tactic(auto)]

ghost use Rattle.std.specs.Prelude.{◌≡◌};
ghost use Rattle.capture.specs.Import.{imported, imported_buffer};
ghost use Rattle.packed_captures.specs.Packed.{packed_import};

use importing::import_capture;

// The events of a capture, for a device of this address, into a lent buffer.
#[tactic(auto, using(crate::proofs::Few::imported_few))]
pub fn import_packed(samples: &[u8], address: u8, events: &mut [u8]) -> u64
    ensures { (result ≡ packed_import (imported address samples.now events.old)) × (events.new ≡ imported_buffer address samples.now events.old) }
{
    match import_capture(samples, address, events) {
        Ok(count) => 256 * (count as u64),
        Err(why) => u64::from(u8::from(why)),
    }
}
