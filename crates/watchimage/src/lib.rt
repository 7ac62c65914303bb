// A listener kept in a lent buffer: a fresh one, and samples heard by it. What stands where is written in crates/watchlayout/specs/Places.antt.
#![tactic(auto)]

mod fitting;
mod laying;
mod reading;

ghost use Rattle.std.specs.Prelude.{◌≡◌, true, length};
ghost use Rattle.watch.specs.Sample.{silent_ear};
ghost use Rattle.watch.specs.Stream.{no_check, no_tally, beginning};
ghost use Rattle.watch.specs.Told.{taken, listened};
ghost use Rattle.watchlayout.specs.Places.{watch_length, laid, watcher_in};
ghost use Rattle.watchlayout.specs.Refusals.{number_of, heeded_of};
ghost use Rattle.watchlayout.specs.Calls.{settings_of, fresh_number, fresh_after, is_watch, heeded, heeded_after};

use crate::fitting::check_watch;
use crate::laying::lay;
use crate::reading::watcher_in;
use arbiter::{Kind, Master, Register};
use capture::{Awaited, Both, Listener};
use format::{is_kind, kind_of};
use step::fresh;
use straps::in_range;
use watch::{Check, Ear, Settings, Tally, Watcher};
use watching::listen;
use watchlayout::{WATCH_LENGTH, WatchRefusal};

// ---- a fresh listener

#[tactic(auto, unfolding(watchlayout::specs::Calls::fresh_number, watchlayout::specs::Refusals::number_of))]
fn check_fresh(kind: u8, address: u8, below: u8, watch: &[u8]) -> Result<(), WatchRefusal>
    ensures { number_of result ≡ fresh_number kind address below watch.now }
{
    if watch.len() != WATCH_LENGTH {
        Err(WatchRefusal::Length)
    } else if !(is_kind(kind) & (below < 2)) {
        Err(WatchRefusal::Argument)
    } else if !in_range(address) {
        Err(WatchRefusal::Address)
    } else {
        Ok(())
    }
}

#[tactic(auto, unfolding(watch::specs::Sample::silent_ear))]
fn silent_ear() -> Ear
    ensures { result ≡ silent_ear }
{
    let silent = Listener {
        awaited: Awaited::NoByte,
        clocks: 0,
        value: 0,
        owed: false,
        broken: false,
    };
    Ear {
        begun: false,
        before: 0,
        since: 0,
        both: Both {
            bus0: silent,
            bus1: silent,
        },
    }
}

#[tactic(auto, unfolding(watch::specs::Stream::no_check))]
fn no_check() -> Check
    ensures { result ≡ no_check }
{
    Check {
        sample: 0,
        master: Master::Zero,
        register: Register::Id,
        heard: 0,
        expected: 0,
    }
}

#[tactic(auto, unfolding(watch::specs::Stream::no_tally))]
fn no_tally() -> Tally
    ensures { result ≡ no_tally }
{
    let none = no_check();
    Tally {
        samples: 0,
        events: 0,
        reads: 0,
        differences: 0,
        faults: 0,
        fault: 0,
        first: none,
        read0: none,
        read1: none,
    }
}

// A listener before its first sample, beside a device after power-up.
#[tactic(auto, unfolding(watch::specs::Stream::beginning))]
fn begin(kind: Kind, address: u8, every: u32, below: u8) -> Watcher
    ensures { result ≡ beginning kind (settings_of address every below) }
{
    Watcher {
        settings: Settings {
            address,
            every,
            below: below == 1,
        },
        ear: silent_ear(),
        device: fresh(kind),
        tally: no_tally(),
    }
}

fn lay_fresh(kind: Kind, address: u8, every: u32, below: u8, watch: &mut [u8])
    requires { length watch.old ≡ watch_length }
    ensures { watch.new ≡ laid (beginning kind (settings_of address every below)) }
{
    lay(begin(kind, address, every, below), watch);
}

// A listener for a device of this kind and address, so many samples a TICK, with or without the bus below. Refused for a buffer of another length, then
// for another kind or another word on the bus below, and then for another address; a refused buffer is left as it was.
#[tactic(auto, using(watchlayout::proofs::Once::is_zero, watchlayout::proofs::Once::is_above), unfolding(watchlayout::specs::Calls::fresh_after, watchlayout::specs::Refusals::number_of))]
pub fn fresh_watch(
    kind: u8,
    address: u8,
    every: u32,
    below: u8,
    watch: &mut [u8],
) -> Result<(), WatchRefusal>
    ensures { (number_of result ≡ fresh_number kind address below watch.old) × (watch.new ≡ fresh_after kind address every below watch.old) }
{
    check_fresh(kind, address, below, watch)?;
    lay_fresh(kind_of(kind), address, every, below, watch);
    Ok(())
}

// ---- samples

fn hear(samples: &[u8], watch: &mut [u8]) -> usize
    requires { is_watch watch.old ≡ true }
    ensures { (result ≡ taken samples.now (watcher_in watch.old)) × (watch.new ≡ laid (listened samples.now (watcher_in watch.old))) }
{
    let done = listen(samples, watcher_in(watch));
    lay(done.watcher, watch);
    done.taken
}

// Samples heard by a listener, all of them or those up to the first that has something to tell, and how many were taken. Refused for a buffer of
// another length and then for a field outside its range; a refused buffer is left as it was.
#[tactic(auto, using(watchlayout::proofs::Once::is_good, watchlayout::proofs::Once::is_bad), unfolding(watchlayout::specs::Calls::heeded, watchlayout::specs::Calls::heeded_after, watchlayout::specs::Refusals::heeded_of, watchlayout::specs::Refusals::number_of))]
pub fn listen_watch(samples: &[u8], watch: &mut [u8]) -> Result<usize, WatchRefusal>
    ensures { (heeded_of result ≡ heeded samples.now watch.old) × (watch.new ≡ heeded_after samples.now watch.old) }
{
    check_watch(watch)?;
    Ok(hear(samples, watch))
}
