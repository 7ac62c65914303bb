// The loop over events (request #114): from a settled device, where most events end by themselves, and from any other, event by event.
ghost use Rattle.std.specs.Prelude.{◌*◌, ◌≤◌, ◌≡◌, ◌++◌, length, drop};
ghost use Rattle.arbiter.specs.Steps.{step, run_from, answers_from};
ghost use Rattle.arbiter.specs.Traces.{event_bytes, raws_in, bytes_of};
ghost use Rattle.light.specs.Light.{Settled};

use crate::raws::{fits_byte, fits_levels, fits_none, fits_one, unread_number};
use crate::sides::{
    answer_kept, bus_lined, byte_read, commanded_number, device_of, ends_no_grant, granted_at,
    hold_asked, intin_fell, is_granted_at_rest, is_initialising, is_resting, lines_shown,
    pair_side, paired_number, pairs_lightly, partner_written, takes_bytes, writes_lightly,
    written_number,
};
use crate::ticks::{is_tick, play_ticks};
use crate::turns::{
    byte_claims, claimed_arb, granted_arb, granted_bits, granted_side, stop_grants,
};
use arbiter::{Device, Raw};
use bus::idle_kept;
use fields::rolls_over;
use format::{event_at, put_answer};
use ports::{commanded_side, stopped_side};
use quiet::{after_ticks, counts_left};
use registers::{empties_own, fallen_side, reader_side, sender_side};
use resets::reset_device;
use step::{answered, step_device};
use writing::writer_side;

// The first n events of these bytes from a settled device, each answered at its place. TICKs that move nothing but counts are taken together, and an event
// that ends with its own effect does so here, on the one side or the two that it moves; so do the STOP that brings a grant and the byte that claims alone,
// and so does what is refused. All else is stepped in full.
//
// It is one long function because it has to be fast: the two sides stand in an array of the loop and are taken by the number of their master, without a
// branch on it, which no function over them by value or by reference keeps. Its index goes on by one at an event and by several at TICKs in a row, so
// it is counted by hand.
pub(crate) fn play(from: Device, events: &[u8], answers: &mut [u8], n: usize) -> Device
    requires { (event_bytes * n ≤ length events.now) × (event_bytes * n ≤ length answers.old) × Settled from }
    ensures { (result ≡ run_from from (raws_in n events.now)) × (answers.new ≡ bytes_of (answers_from from (raws_in n events.now)) ++ drop (event_bytes * n) answers.old) }
{
    let first = answered(0, 0, from);
    let mut owner = first.owner;
    let mut lines = first.lines;
    let kind = from.kind;
    let rolls = rolls_over(from);
    let side0 = from.side0;
    let side1 = from.side1;
    let mut sides = [side0, side1];
    let mut bus = from.bus;
    let mut arb = from.arb;
    let mut i: usize = 0;
    while i < n {
        let r = event_at(events, i);
        if is_tick(r) {
            let s0 = sides[0];
            let s1 = sides[1];
            let d = device_of(kind, s0, s1, bus, arb);
            let k = counts_left(d);
            if k == 0 {} else {
                let last = i + (k as usize).min(n - i);
                let j = play_ticks(events, answers, i, last, answer_kept(0, 0, owner, lines));
                let e = after_ticks((j - i) as u16, d);
                bus = e.bus;
                arb = e.arb;
                i = j;
                continue;
            }
        }
        let at = (r.x % 2) as usize;
        let what = r.kind;
        match what {
            0 => {
                if fits_byte(r) {
                    let s = sides[at];
                    sides[at] = commanded_side(r.y, s);
                    put_answer(
                        answers,
                        i,
                        answer_kept(commanded_number(r.y), 0, owner, lines),
                    );
                    i += 1;
                    continue;
                }
            }
            1 => {
                if fits_byte(r) {
                    let s = sides[at];
                    if takes_bytes(s) {
                        if writes_lightly(r.x, r.y, arb, s) {
                            let o = sides[1 - at];
                            sides[at] = writer_side(rolls, granted_at(r.x, arb), r.y, s);
                            sides[1 - at] = partner_written(r.y, s, o);
                            let s0 = sides[0];
                            let s1 = sides[1];
                            lines = lines_shown(s0, s1, bus);
                            put_answer(answers, i, answer_kept(written_number(s), 0, owner, lines));
                            i += 1;
                            continue;
                        }
                    } else {
                        put_answer(answers, i, answer_kept(4, 0, owner, lines));
                        i += 1;
                        continue;
                    }
                }
            }
            2 => {
                if fits_one(r) {
                    let s = sides[at];
                    let o = sides[1 - at];
                    let read = byte_read(r.x, arb, s, o, bus);
                    sides[at] = reader_side(s);
                    if empties_own(s) {
                        sides[1 - at] = sender_side(true, o);
                        let s0 = sides[0];
                        let s1 = sides[1];
                        lines = lines_shown(s0, s1, bus);
                        put_answer(answers, i, answer_kept(0, read, owner, lines));
                        i += 1;
                        continue;
                    } else {
                        put_answer(answers, i, answer_kept(0, read, owner, lines));
                        i += 1;
                        continue;
                    }
                }
            }
            3 => {
                if fits_one(r) {
                    let s = sides[at];
                    if is_resting(s) {
                        put_answer(answers, i, answer_kept(4, 0, owner, lines));
                        i += 1;
                        continue;
                    } else {
                        if is_granted_at_rest(r.x, bus, arb) {} else {
                            sides[at] = stopped_side(s);
                            put_answer(answers, i, answer_kept(0, 0, owner, lines));
                            i += 1;
                            continue;
                        }
                    }
                }
            }
            4 => {
                if r.z == 0 {
                    let s0 = sides[0];
                    let s1 = sides[1];
                    if takes_bytes(s0) & takes_bytes(s1) {
                        if pairs_lightly(r.x, r.y, arb, s0, s1) {
                            let e0 = pair_side(rolls, granted_at(0, arb), r.x, r.y, s0, s1);
                            let e1 = pair_side(rolls, granted_at(1, arb), r.y, r.x, s1, s0);
                            sides[0] = e0;
                            sides[1] = e1;
                            lines = lines_shown(e0, e1, bus);
                            put_answer(
                                answers,
                                i,
                                answer_kept(paired_number(s0, s1), 0, owner, lines),
                            );
                            i += 1;
                            continue;
                        }
                    } else {
                        put_answer(answers, i, answer_kept(4, 0, owner, lines));
                        i += 1;
                        continue;
                    }
                }
            }
            5 => {
                if fits_levels(r) {
                    let s0 = sides[0];
                    let s1 = sides[1];
                    let after = bus_lined(r, bus);
                    if ends_no_grant(kind, s0, s1, after, arb) {
                        let fell = intin_fell(r, bus);
                        let e0 = fallen_side(fell, s0);
                        let e1 = fallen_side(fell, s1);
                        sides[0] = e0;
                        sides[1] = e1;
                        bus = after;
                        lines = lines_shown(e0, e1, after);
                        put_answer(answers, i, answer_kept(0, 0, owner, lines));
                        i += 1;
                        continue;
                    }
                }
            }
            7 => {
                if fits_one(r) {
                    if is_initialising(arb) {} else {
                        put_answer(answers, i, answer_kept(4, 0, owner, lines));
                        i += 1;
                        continue;
                    }
                }
            }
            8 => {
                if fits_none(r) {
                    let s0 = sides[0];
                    let s1 = sides[1];
                    let d = reset_device(0, device_of(kind, s0, s1, bus, arb));
                    let a = answered(0, 0, d);
                    put_answer(answers, i, a);
                    let e0 = d.side0;
                    let e1 = d.side1;
                    sides[0] = e0;
                    sides[1] = e1;
                    bus = d.bus;
                    arb = d.arb;
                    owner = a.owner;
                    lines = a.lines;
                    i += 1;
                    continue;
                }
            }
            9 => {
                if fits_byte(r) {
                    if r.y == 0x06 {
                        let s = sides[at];
                        let s0 = sides[0];
                        let s1 = sides[1];
                        let d = reset_device(hold_asked(s), device_of(kind, s0, s1, bus, arb));
                        let a = answered(0, 0, d);
                        put_answer(answers, i, a);
                        let e0 = d.side0;
                        let e1 = d.side1;
                        sides[0] = e0;
                        sides[1] = e1;
                        bus = d.bus;
                        arb = d.arb;
                        owner = a.owner;
                        lines = a.lines;
                        i += 1;
                        continue;
                    } else {
                        put_answer(answers, i, answer_kept(1, 0, owner, lines));
                        i += 1;
                        continue;
                    }
                }
            }
            _ => {}
        }
        let own = sides[at];
        if stop_grants(r, bus, arb, own) {
            let after = idle_kept(false, bus);
            let won = granted_arb(r.x, own, arb);
            owner = owner + granted_bits(r.x, own.contr);
            sides[at] = granted_side(own);
            let s0 = sides[0];
            let s1 = sides[1];
            lines = lines_shown(s0, s1, after);
            bus = after;
            arb = won;
            put_answer(answers, i, answer_kept(0, 0, owner, lines));
            i += 1;
            continue;
        }
        if byte_claims(r, arb, own) {
            let claimed = claimed_arb(r.x, arb);
            sides[at] = writer_side(rolls, false, r.y, own);
            arb = claimed;
            // The ground of a sole claimant; nobody owns, and the switch is apart.
            owner = 32;
            put_answer(answers, i, answer_kept(0, 0, owner, lines));
            i += 1;
            continue;
        }
        let unread = unread_number(r);
        if unread == 0 {} else {
            put_answer(answers, i, answer_kept(unread, 0, owner, lines));
            i += 1;
            continue;
        }
        let s0 = sides[0];
        let s1 = sides[1];
        let s = step_device(device_of(kind, s0, s1, bus, arb), r);
        let a = s.answer;
        put_answer(answers, i, a);
        let e = s.device;
        let e0 = e.side0;
        let e1 = e.side1;
        sides[0] = e0;
        sides[1] = e1;
        bus = e.bus;
        arb = e.arb;
        owner = a.owner;
        lines = a.lines;
        i += 1;
    }
    let s0 = sides[0];
    let s1 = sides[1];
    device_of(kind, s0, s1, bus, arb)
}

// The same from any device: each event is stepped in full.
pub(crate) fn step_each(from: Device, events: &[u8], answers: &mut [u8], n: usize) -> Device
    requires { (event_bytes * n ≤ length events.now) × (event_bytes * n ≤ length answers.old) }
    ensures { (result ≡ run_from from (raws_in n events.now)) × (answers.new ≡ bytes_of (answers_from from (raws_in n events.now)) ++ drop (event_bytes * n) answers.old) }
{
    let mut d = from;
    for i in 0..n {
        let s = step_device(d, event_at(events, i));
        put_answer(answers, i, s.answer);
        d = s.device;
    }
    d
}
