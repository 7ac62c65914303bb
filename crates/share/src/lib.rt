// The bus share over many traces (request #112): for how many ticks each controller owned the bus, was connected, and waited. Each trace
// runs from power-up, and the state after each of its TICKs is looked at.
#![tactic(auto)]

mod counting;
pub mod lent;

ghost use Rattle.std.specs.Prelude.{◌≡◌};
ghost use Rattle.share.specs.Share.{refused_by, no_totals, read_alone, totals_of, together, added_with, added, joined, uncounted_number, told_number, read_told, trace_told, join_told};
ghost use Rattle.share.specs.Walk.{shares};

use arbiter::{Accepted, Device, Refusal};
use counting::count_events;
use format::{ANSWER_ROOM, HEAD_BYTES, refusal_number};
use step::fresh;
use traces::reading::read_trace;

// Totals are over so many traces at most.
pub const MOST_TRACES: u64 = 65535;

// The two controllers' totals stand side by side, as the laws of specs/Laws.antt name them.
//
// The ticks of all traces, how many of them each controller owned, was connected and waited, its longest wait, and the traces: all of them,
// and the refused ones by their number.
#[derive(Clone, Copy, Default)]
pub struct Totals {
    pub traces: u64,
    pub ticks: u64,
    pub owned0: u64,
    pub owned1: u64,
    pub unowned: u64,
    pub connected0: u64,
    pub connected1: u64,
    pub waited0: u64,
    pub waited1: u64,
    pub longest0: u64,
    pub longest1: u64,
    pub refused3: u64,
    pub refused5: u64,
    pub refused6: u64,
    pub refused7: u64,
    pub refused8: u64,
    pub refused10: u64,
}

// Why a trace, or other totals, are not counted as accepted traces are.
#[derive(Clone, Copy, PartialEq, Eq)]
pub enum Uncounted {
    // The trace is refused: it is in the totals under its number.
    BadTrace(Refusal),
    // They would be more than 65,535 traces.
    PastMost,
    // A buffer does not have as many numbers as there are totals.
    OtherLength,
}

pub fn uncounted_number(why: Uncounted) -> u8
    ensures { result ≡ uncounted_number why }
{
    match why {
        Uncounted::BadTrace(refusal) => refusal_number(refusal),
        Uncounted::PastMost => 6,
        Uncounted::OtherLength => 9,
    }
}

// What is seen of a state: who owns or nobody, whose switch is closed, who waits.
#[derive(Clone, Copy)]
pub struct Seen {
    pub owns0: bool,
    pub owns1: bool,
    pub free: bool,
    pub closed0: bool,
    pub closed1: bool,
    pub waits0: bool,
    pub waits1: bool,
}

// The counts of one trace so far. A run is a wait that has not ended.
#[derive(Clone, Copy, Default)]
pub struct Tally {
    pub ticks: u16,
    pub owned0: u16,
    pub owned1: u16,
    pub unowned: u16,
    pub connected0: u16,
    pub connected1: u16,
    pub waited0: u16,
    pub waited1: u16,
    pub run0: u16,
    pub run1: u16,
    pub longest0: u16,
    pub longest1: u16,
}

// A point on the way through a trace: the device after so many events, and the counts. That its device is settled is said where it is needed and not in the
// type: specs/Walk.antt makes points of their parts alone (`point_with`), where no proof is at hand.
#[derive(Clone, Copy)]
pub struct Point {
    pub device: Device,
    pub tally: Tally,
    pub at: usize,
}

// ---- what one trace has of each total

#[tactic(auto, unfolding(crate::specs::Share::no_totals))]
pub fn empty_totals() -> Totals
    ensures { result ≡ no_totals }
{
    Totals::default()
}

#[tactic(auto, unfolding(crate::specs::Walk::shares, crate::specs::Share::no_totals))]
fn shares_in(t: Tally) -> Totals
    ensures { result ≡ shares t }
{
    Totals {
        traces: 1,
        ticks: u64::from(t.ticks),
        owned0: u64::from(t.owned0),
        owned1: u64::from(t.owned1),
        unowned: u64::from(t.unowned),
        connected0: u64::from(t.connected0),
        connected1: u64::from(t.connected1),
        waited0: u64::from(t.waited0),
        waited1: u64::from(t.waited1),
        longest0: u64::from(t.longest0),
        longest1: u64::from(t.longest1),
        ..empty_totals()
    }
}

#[tactic(auto, unfolding(crate::specs::Share::refused_by, crate::specs::Share::no_totals))]
fn refused_by(number: u8) -> Totals
    ensures { result ≡ refused_by number }
{
    Totals {
        traces: 1,
        refused3: u64::from(number == 3),
        refused5: u64::from(number == 5),
        refused6: u64::from(number == 6),
        refused7: u64::from(number == 7),
        refused8: u64::from(number == 8),
        refused10: u64::from(number == 10),
        ..empty_totals()
    }
}

// ---- totals put together

// Sums that stop at the top, and of the longest waits the larger.
fn put_together(x: Totals, y: Totals) -> Totals
    ensures { result ≡ together x y }
{
    Totals {
        traces: x.traces.saturating_add(y.traces),
        ticks: x.ticks.saturating_add(y.ticks),
        owned0: x.owned0.saturating_add(y.owned0),
        owned1: x.owned1.saturating_add(y.owned1),
        unowned: x.unowned.saturating_add(y.unowned),
        connected0: x.connected0.saturating_add(y.connected0),
        connected1: x.connected1.saturating_add(y.connected1),
        waited0: x.waited0.saturating_add(y.waited0),
        waited1: x.waited1.saturating_add(y.waited1),
        longest0: x.longest0.max(y.longest0),
        longest1: x.longest1.max(y.longest1),
        refused3: x.refused3.saturating_add(y.refused3),
        refused5: x.refused5.saturating_add(y.refused5),
        refused6: x.refused6.saturating_add(y.refused6),
        refused7: x.refused7.saturating_add(y.refused7),
        refused8: x.refused8.saturating_add(y.refused8),
        refused10: x.refused10.saturating_add(y.refused10),
    }
}

// ---- the calls

// What a trace has of each total, from its reading. There is no answer buffer, so it is read with room for any.
fn totals_of(read: Result<Accepted, Refusal>, t: &[u8]) -> Totals
    requires { read ≡ read_alone t.now }
    ensures { result ≡ totals_of (read_alone t.now) t.now }
{
    match read {
        Err(why) => refused_by(refusal_number(why)),
        Ok(accepted) => {
            let tally = count_events(fresh(accepted.kind), &t[HEAD_BYTES..], accepted.events);
            shares_in(tally)
        }
    }
}

fn outcome_of(read: Result<Accepted, Refusal>) -> Result<(), Uncounted>
    ensures { result ≡ read_told read }
{
    match read {
        Err(why) => Err(Uncounted::BadTrace(why)),
        Ok(_) => Ok(()),
    }
}

// A trace added to the totals. One that is refused is counted under its number; past 65,535 traces the totals are kept.
pub fn add_trace(totals: &mut Totals, t: &[u8]) -> Result<(), Uncounted>
    ensures { (result ≡ trace_told totals.old t.now) × (added_with totals.new (told_number result) ≡ added totals.old t.now) }
{
    if MOST_TRACES <= totals.traces {
        return Err(Uncounted::PastMost);
    }
    let read = read_trace(t, ANSWER_ROOM);
    let own = totals_of(read, t);
    *totals = put_together(*totals, own);
    outcome_of(read)
}

// Totals of other traces joined to these, as when traces are counted in several places. Where both are of more than 65,535 traces the totals are kept.
pub fn join(totals: &mut Totals, other: Totals) -> Result<(), Uncounted>
    ensures { (result ≡ join_told totals.old other) × (added_with totals.new (told_number result) ≡ joined totals.old other) }
{
    if MOST_TRACES < totals.traces.saturating_add(other.traces) {
        return Err(Uncounted::PastMost);
    }
    *totals = put_together(*totals, other);
    Ok(())
}
