// What is counted of a stream: events, READs and those that differ, samples and faults.
ghost use Rattle.std.specs.Prelude.{◌≡◌};
ghost use Rattle.arbiter.specs.Steps.{step};
ghost use Rattle.arbiter.specs.declared.Event.TheVariants.{Read};
ghost use Rattle.capture.specs.Events.{raw_of};
ghost use Rattle.watch.specs.Stream.{check_of, differs, with_event, first_with, with_read, tally_with, fault_with, with_sample};

use arbiter::{Device, Event, Master};
use capture::Both;
use watch::{Check, Tally};

// ---- a READ held against the model

// The byte that the model answers is handed over: it stands in the answer of the step, which is made anyway.
#[tactic(auto, unfolding(watch::specs::Stream::check_of))]
fn check_of(sample: u64, s: Both, m: Master, d: Device, expected: u8) -> Check
    requires { expected ≡ (step d (raw_of (Read m))).answer.read }
    ensures { result ≡ check_of sample s m d }
{
    let (register, heard) = match m {
        Master::Zero => (d.side0.pointer, s.bus0.value),
        Master::One => (d.side1.pointer, s.bus1.value),
    };
    Check {
        sample,
        master: m,
        register,
        heard,
        expected,
    }
}

fn is_different(k: Check) -> bool
    ensures { result ≡ differs k }
{
    k.heard != k.expected
}

// ---- one event

#[tactic(auto, using(crate::proofs::Sums::plus_past, crate::proofs::Sums::plus_in), unfolding(watch::specs::Stream::with_event))]
fn with_event(t: Tally) -> Tally
    ensures { result ≡ with_event t }
{
    Tally {
        events: t.events.saturating_add(1),
        ..t
    }
}

fn first_with(t: Tally, k: Check) -> Check
    ensures { result ≡ first_with t k }
{
    if (t.differences == 0) & is_different(k) {
        k
    } else {
        t.first
    }
}

// It is the last READ of its master.
#[tactic(auto, using(crate::proofs::Sums::plus_past, crate::proofs::Sums::plus_in), unfolding(watch::specs::Stream::with_read))]
fn with_read(k: Check, t: Tally) -> Tally
    ensures { result ≡ with_read k t }
{
    let (read0, read1) = match k.master {
        Master::Zero => (k, t.read1),
        Master::One => (t.read0, k),
    };
    Tally {
        events: t.events.saturating_add(1),
        reads: t.reads.saturating_add(1),
        differences: t.differences.saturating_add(u64::from(is_different(k))),
        first: first_with(t, k),
        read0,
        read1,
        ..t
    }
}

// An event with the byte that the model answers to it.
#[tactic(auto, using(crate::proofs::Sums::not_read), unfolding(watch::specs::Stream::tally_with))]
pub(crate) fn tally_with(e: Event, s: Both, d: Device, t: Tally, answered: u8) -> Tally
    requires { answered ≡ (step d (raw_of e)).answer.read }
    ensures { result ≡ tally_with e s d t }
{
    if let Event::Read(m) = e {
        with_read(check_of(t.samples, s, m, d, answered), t)
    } else {
        with_event(t)
    }
}

// ---- one sample, or several that have no fault

fn fault_with(faults: u64, t: Tally) -> u64
    ensures { result ≡ fault_with faults t }
{
    if (t.faults == 0) & (faults != 0) {
        t.samples
    } else {
        t.fault
    }
}

#[tactic(auto, using(crate::proofs::Sums::plus_past, crate::proofs::Sums::plus_in), unfolding(watch::specs::Stream::with_sample))]
pub(crate) fn with_sample(faults: u64, t: Tally) -> Tally
    ensures { result ≡ with_sample faults t }
{
    Tally {
        samples: t.samples.saturating_add(1),
        faults: t.faults.saturating_add(faults),
        fault: fault_with(faults, t),
        ..t
    }
}
