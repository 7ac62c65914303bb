// Parts 5 and 6 of a step: the claim, with its winner table, and the grant; and when each has nothing to do.
ghost use Rattle.std.specs.Prelude.{◌≤◌, ◌≡◌, if◌then◌else◌};
ghost use Rattle.arbiter.specs.Words.{side};
ghost use Rattle.arbiter.specs.Parts.{with_ints};
ghost use Rattle.arbiter.specs.Registers.{granted_int, raised};
ghost use Rattle.arbiter.specs.Order.{column, winner, ground_of, claim_by, new_claim, claim_after, claim, granted_arb, grant};
ghost use Rattle.arbitration.specs.Cleared.{ground_in};
ghost use Rattle.arbitration.specs.Quiet.{no_claim, is_ready, no_grant};

use arbiter::{Arbitration, Bus, Control, Device, Ground, Master, Side, Turn};
use bits::{pick, worth_of};
use bus::idle_kept;
use fields::{claims_turn, side_of, with_turn};
use ports::is_at_rest;
use registers::raised_in;

// ---- 5. claim

// A row for each pair of priorities, 00, 01, 10 and 11; a column for last granted none, 0 and 1.
const WINNERS: [[u8; 3]; 4] = [[0, 1, 0], [1, 1, 1], [0, 0, 0], [1, 1, 0]];

fn column_of(last: Option<Master>) -> usize
    ensures { (result ≡ column last) × (result ≤ 2) }
{
    match last {
        None => 0,
        Some(Master::Zero) => 1,
        Some(Master::One) => 2,
    }
}

fn winner_of(p0: bool, p1: bool, last: Option<Master>) -> Master
    ensures { result ≡ winner p0 p1 last }
{
    let row = (worth_of(2, p0) + worth_of(1, p1)) as usize;
    let at = column_of(last);
    let w = WINNERS[row][at];
    if w == 0 { Master::Zero } else { Master::One }
}

// The ground on which the winner of two requesters with these priorities wins.
fn ground_of(p0: bool, p1: bool) -> Ground
    ensures { result ≡ ground_of p0 p1 }
{
    if p0 {
        if p1 {
            Ground::LastGranted
        } else {
            Ground::Priority
        }
    } else {
        if p1 {
            Ground::Priority
        } else {
            Ground::LastGranted
        }
    }
}

fn claim_by(c0: Control, c1: Control, last: Option<Master>) -> Turn
    ensures { result ≡ claim_by c0.lockreq c1.lockreq (winner c0.priority c1.priority last) (ground_of c0.priority c1.priority) }
{
    if c0.lockreq {
        if c1.lockreq {
            Turn::Claims(
                winner_of(c0.priority, c1.priority, last),
                ground_of(c0.priority, c1.priority),
            )
        } else {
            Turn::Claims(Master::Zero, Ground::Sole)
        }
    } else {
        if c1.lockreq {
            Turn::Claims(Master::One, Ground::Sole)
        } else {
            Turn::Nobody
        }
    }
}

fn new_claim(d: Device) -> Turn
    ensures { result ≡ new_claim d }
{
    claim_by(d.side0.contr, d.side1.contr, d.arb.last)
}

// m's LOCK_REQ.
fn requests(m: Master, d: Device) -> bool
    ensures { result ≡ (side m d).contr.lockreq }
{
    side_of(m, d).contr.lockreq
}

fn claim_after(t: Turn, d: Device) -> Turn
    ensures { result ≡ claim_after t d }
{
    match t {
        Turn::Nobody => new_claim(d),
        Turn::Claims(m, g) => if requests(m, d) {
            Turn::Claims(m, g)
        } else {
            new_claim(d)
        },
        Turn::Owns(m, g) => Turn::Owns(m, g),
    }
}

#[tactic(auto, unfolding(arbiter::specs::Order::claim))]
pub fn claim_of(d: Device) -> Device
    ensures { result ≡ claim d }
{
    Device {
        arb: with_turn(claim_after(d.arb.turn, d), d.arb),
        ..d
    }
}

// Part 5 has nothing to do: nobody requests, the claimant still does, or there is an owner.
pub fn no_claim(t: Turn, d: Device) -> bool
    ensures { result ≡ no_claim t d }
{
    match t {
        Turn::Nobody => !d.side0.contr.lockreq & !d.side1.contr.lockreq,
        Turn::Claims(m, _) => requests(m, d),
        Turn::Owns(_, _) => true,
    }
}

// ---- 6. grant

// The ground of the present claim. Where there is none, nothing depends on it.
pub fn ground_in(t: Turn) -> Ground
    ensures { result ≡ ground_in t }
{
    match t {
        Turn::Nobody => Ground::Sole,
        Turn::Claims(_, g) => g,
        Turn::Owns(_, g) => g,
    }
}

#[tactic(auto, using(crate::proofs::Laws::granted_arb_lem))]
fn granted_if(on: bool, m: Master, g: Ground, rt: u8, a: Arbitration) -> Arbitration
    ensures { result ≡ (if on then granted_arb m g rt a else a) }
{
    Arbitration {
        last: pick(on, Some(m), a.last),
        reserve: pick(on, rt, a.reserve),
        turn: pick(on, Turn::Owns(m, g), a.turn),
        ..a
    }
}

// A side that is told of its grant, if it is granted.
fn told_if(on: bool, s: Side) -> Side
    ensures { result ≡ with_ints (raised granted_int on s.ints) s }
{
    Side {
        ints: raised_in(s.ints, 0x04, on),
        ..s
    }
}

// This side is granted, if it is the claimant's: its port is at rest and SCL is not held.
fn is_ready(s: Side, b: Bus) -> bool
    ensures { result ≡ is_ready s b }
{
    is_at_rest(s.port) & (b.hold == 0)
}

#[tactic(auto, using(crate::proofs::Laws::grant_law), unfolding(arbiter::specs::Order::grant))]
pub fn grant_of(d: Device) -> Device
    ensures { result ≡ grant d }
{
    let to0 = claims_turn(Master::Zero, d.arb.turn) & is_ready(d.side0, d.bus);
    let to1 = claims_turn(Master::One, d.arb.turn) & is_ready(d.side1, d.bus);
    let m = pick(to1, Master::One, Master::Zero);
    let g = ground_in(d.arb.turn);
    let rt = pick(to1, d.side1.rt, d.side0.rt);
    Device {
        side0: told_if(to0, d.side0),
        side1: told_if(to1, d.side1),
        bus: idle_kept(!(to0 | to1), d.bus),
        arb: granted_if(to0 | to1, m, g, rt, d.arb),
        ..d
    }
}

// Part 6 has nothing to do: there is no claimant, or it is not granted.
pub fn no_grant(t: Turn, d: Device) -> bool
    ensures { result ≡ no_grant t d }
{
    match t {
        Turn::Nobody => true,
        Turn::Claims(m, _) => !is_ready(side_of(m, d), d.bus),
        Turn::Owns(_, _) => true,
    }
}
