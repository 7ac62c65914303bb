// A listener in a lent buffer, for Rust and C: what a call tells packed in one number.
#![tactic(auto)]

ghost use Rattle.std.specs.Prelude.{◌≡◌, length};
ghost use Rattle.watchlayout.specs.Calls.{fresh_number, fresh_after, heeded, heeded_after};
ghost use Rattle.packed_watches.specs.Packed.{at_once, count_at_once, packed_heeded};

use watchimage::{fresh_watch, listen_watch};

// A call hears so many samples at most, so that their count fits beside the number: most_at_once in specs/Packed.
const MOST_AT_ONCE: usize = 4294967295;

fn count_at_once(n: usize) -> usize
    ensures { result ≡ count_at_once n }
{
    n.min(MOST_AT_ONCE)
}

// A fresh listener for a device of this kind and address.
#[tactic(auto, unfolding(watchlayout::specs::Refusals::number_of))]
pub fn fresh_packed(kind: u8, address: u8, every: u32, below: u8, watch: &mut [u8]) -> u32
    ensures { (result ≡ fresh_number kind address below watch.old) × (watch.new ≡ fresh_after kind address every below watch.old) }
{
    match fresh_watch(kind, address, every, below, watch) {
        Ok(()) => 0,
        Err(refusal) => u32::from(u8::from(refusal)),
    }
}

// Samples heard by a listener, and how many were taken.
#[tactic(auto, unfolding(watchlayout::specs::Refusals::heeded_of))]
pub fn listen_packed(samples: &[u8], watch: &mut [u8]) -> u64
    ensures { (result ≡ packed_heeded (heeded (at_once samples.now) watch.old)) × (watch.new ≡ heeded_after (at_once samples.now) watch.old) }
{
    let n = count_at_once(samples.len());
    match listen_watch(&samples[..n], watch) {
        Ok(taken) => 256 * (taken as u64),
        Err(refusal) => u64::from(u8::from(refusal)),
    }
}
