// A listener on both upstream buses, by value: so many samples of a chunk as one call takes.
#![tactic(auto)]

mod counting;
mod sample;

ghost use Rattle.std.specs.Prelude.{◌+◌, ◌≤◌, ◌≡◌, true, ◌||◌, eqb, length, take, drop};
ghost use Rattle.watch.specs.Told.{tells, taken, listened};
ghost use Rattle.watching.specs.Resting.{are_all, is_ready, with_samples, since_more, ear_rested, rested};

use sample::watch_sample;
use watch::{Ear, Settings, Tally, Watcher};

// A listener after so many samples.
#[derive(Clone, Copy)]
pub struct Listened {
    pub watcher: Watcher,
    pub taken: usize,
}

// ---- samples that repeat the one before

// How many of them may come before the next TICK is due.
#[tactic(auto, using(crate::proofs::Resting::soon_room, crate::proofs::Resting::or_true), unfolding(crate::specs::Resting::is_ready))]
fn room_of(c: Settings, e: Ear) -> usize
    ensures { (eqb result 0 || is_ready c e result) ≡ true }
{
    if e.begun & !e.both.bus0.broken & !e.both.bus1.broken {
        if c.every == 0 {
            return usize::MAX;
        }
        if e.since < c.every {
            (c.every - e.since - 1) as usize
        } else {
            0
        }
    } else {
        0
    }
}

// How many samples from one on are this one.
#[tactic(auto, unfolding(crate::specs::Resting::are_all))]
fn count_still(samples: &[u8], from: usize, x: u8, room: usize) -> usize
    requires { from ≤ length samples.now }
    ensures { (result ≤ room) × (from + result ≤ length samples.now) × (are_all x (take result (drop from samples.now)) ≡ true) }
{
    // The room is taken off the slice, and not by `take`: a bus at rest spends its time here, and `take` asks again at each sample.
    let most = room.min(samples.len() - from);
    samples[from..from + most]
        .iter()
        .take_while(|&&y| y == x)
        .count()
}

#[tactic(auto, using(crate::proofs::Sums::plus_past, crate::proofs::Sums::plus_in, crate::proofs::Sums::plus_none), unfolding(crate::specs::Resting::with_samples))]
fn with_samples(n: u64, t: Tally) -> Tally
    ensures { result ≡ with_samples n t }
{
    Tally {
        samples: t.samples.saturating_add(n),
        ..t
    }
}

#[tactic(auto, using(crate::proofs::Resting::ready_far), unfolding(crate::specs::Resting::since_more))]
fn since_more(c: Settings, e: Ear, n: usize) -> u32
    requires { is_ready c e n ≡ true }
    ensures { result ≡ since_more c e n }
{
    if c.every == 0 {
        0
    } else {
        e.since + (n as u32)
    }
}

#[tactic(auto, unfolding(crate::specs::Resting::ear_rested))]
fn ear_rested(c: Settings, e: Ear, n: usize) -> Ear
    requires { is_ready c e n ≡ true }
    ensures { result ≡ ear_rested c e n }
{
    Ear {
        since: since_more(c, e, n),
        ..e
    }
}

#[tactic(auto, unfolding(crate::specs::Resting::rested))]
fn rest(n: usize, w: Watcher) -> Watcher
    requires { is_ready w.settings w.ear n ≡ true }
    ensures { result ≡ rested n w }
{
    Watcher {
        ear: ear_rested(w.settings, w.ear, n),
        tally: with_samples(n as u64, w.tally),
        ..w
    }
}

// ---- so many samples as there is nothing to tell of

#[tactic(auto, unfolding(watch::specs::Told::tells))]
fn is_told(before: Tally, after: Tally) -> bool
    ensures { result ≡ tells before after }
{
    (before.differences < after.differences) | (before.faults < after.faults)
}

// Up to the first sample that has something to tell, or all of them: one sample at a time, or several that are alike, so no iterator gives the turns.
#[tactic(auto, using(crate::proofs::Resting::ready_still), unfolding(watch::specs::Stream::watched))]
pub fn listen(samples: &[u8], w: Watcher) -> Listened
    ensures { (result.watcher ≡ listened samples.now w) × (result.taken ≡ taken samples.now w) }
{
    let mut watcher = w;
    let mut at: usize = 0;
    while at < samples.len() {
        let room = room_of(watcher.settings, watcher.ear);
        let still = count_still(samples, at, watcher.ear.before, room);
        if still == 0 {
            let before = watcher.tally;
            watcher = watch_sample(samples[at], watcher);
            at += 1;
            if is_told(before, watcher.tally) {
                break;
            }
        } else {
            watcher = rest(still, watcher);
            at += still;
        }
    }
    Listened { watcher, taken: at }
}
