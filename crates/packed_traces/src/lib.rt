// Traces for Rust and C: what is reported of one packed in one number, its bytes in a lent buffer.
#![tactic(auto)]

ghost use Rattle.std.specs.Prelude.{◌≡◌, ◌≤◌, length};
ghost use Rattle.arbiter.specs.Traces.{most_bytes, report, buffer_after};
ghost use Rattle.arbiter.specs.OldTraces.{conversion, buffer_converted};
ghost use Rattle.arbiter.specs.Writing.{written, buffer_written};
ghost use Rattle.format.specs.Refused.{written_of};
ghost use Rattle.packed_traces.specs.Packed.{packed_report, packed_written};

use arbiter::{Pins, Refusal};
use converter::convert_trace;
use format::{kind_number, refusal_number};
use packing::long_of;
use traces::answer_trace;
use writer::write_trace;

// A whole trace into a lent answer buffer.
pub fn run_packed(t: &[u8], out: &mut [u8]) -> u64
    ensures { (result ≡ packed_report (report t.now out.old)) × (out.new ≡ buffer_after t.now out.old) }
{
    let (number, head) = match answer_trace(t, out) {
        Ok(head) => (0, head),
        Err(refused) => (refusal_number(refused.refusal), refused.told),
    };
    long_of(number)
        + 256 * long_of(head.address)
        + 65536 * (head.events as u64)
        + 4294967296 * long_of(kind_number(head.kind))
}

// The length of what was written, above the number; or the number of its refusal alone.
fn packed_length(written: Result<usize, Refusal>) -> u64
    requires { (written_of written).length ≤ most_bytes }
    ensures { result ≡ packed_written (written_of written) }
{
    match written {
        Ok(length) => 256 * (length as u64),
        Err(refusal) => u64::from(refusal_number(refusal)),
    }
}

// The trace of four pins, a kind of part and some events into a lent buffer.
pub fn write_packed(
    ad3: u8,
    ad2: u8,
    ad1: u8,
    ad0: u8,
    kind: u8,
    events: &[u8],
    out: &mut [u8],
) -> u64
    ensures { (result ≡ packed_written (written (record { ad3 = ad3; ad2 = ad2; ad1 = ad1; ad0 = ad0 }) kind events.now out.old)) × (out.new ≡ buffer_written (record { ad3 = ad3; ad2 = ad2; ad1 = ad1; ad0 = ad0 }) kind events.now out.old) }
{
    let written = write_trace(Pins { ad3, ad2, ad1, ad0 }, kind, events, out);
    packed_length(written)
}

// A trace from before the kind of part, with the section of a PCA9641 added, into a lent buffer.
pub fn convert_packed(old: &[u8], out: &mut [u8]) -> u64
    ensures { (result ≡ packed_written (conversion old.now out.old)) × (out.new ≡ buffer_converted old.now out.old) }
{
    let converted = convert_trace(old, out);
    packed_length(converted)
}
