// The listing of a trace, as text in a lent buffer: a line with the address and the count, then a line an answer; or R and the number.
#![tactic(auto)]

ghost use Rattle.std.specs.Prelude.{◌+◌, ◌*◌, ◌/◌, ◌%◌, ◌≤◌, ◌<◌, ◌≡◌, ◌++◌, length, drop};
ghost use Rattle.std.proofs.lemmas.List.Edits.{sets};
ghost use Rattle.arbiter.specs.Traces.{event_bytes, most_events, answer_room};
ghost use Rattle.arbiter.specs.Listing.{hex_digit, hex2, head_line, head_chars, line_chars, most_chars, listing};
ghost use Rattle.text.specs.Written.{fitted, text_after, line_in, lines_in, refusal_line};

use format::{ANSWER_ROOM, EVENT_BYTES, MOST_EVENTS, refusal_number};
use traces::answer_trace;

// The lengths of the first line and of an answer's line, their ends counted.
const HEAD_CHARS: usize = 8;

const LINE_CHARS: usize = 9;

// Room for any listing.
pub const LISTING_ROOM: usize = HEAD_CHARS + LINE_CHARS * MOST_EVENTS;

const NEWLINE: u8 = 0x0A;

const SPACE: u8 = 0x20;

const REFUSED: u8 = 0x52;

// ---- digits

fn hex_digit(n: u8) -> u8
    requires { n < 16 }
    ensures { result ≡ hex_digit n }
{
    if n < 10 { 0x30 + n } else { 0x37 + n }
}

// A byte's two digits.
pub fn high_digit(v: u8) -> u8
    ensures { result ≡ hex_digit (v / 16 % 16) }
{
    hex_digit(v / 16 % 16)
}

pub fn low_digit(v: u8) -> u8
    ensures { result ≡ hex_digit (v % 16) }
{
    hex_digit(v % 16)
}

fn put_hex(text: &mut [u8], at: usize, v: u8)
    requires { at + 2 ≤ length text.old }
    ensures { text.new ≡ sets text.old at (hex2 v) }
{
    text[at] = high_digit(v);
    text[at + 1] = low_digit(v);
}

// ---- lines

fn put_head(text: &mut [u8], address: u8, n: usize)
    requires { (head_chars ≤ length text.old) × (n ≤ most_events) }
    ensures { text.new ≡ sets text.old 0 (head_line address n) }
{
    put_hex(text, 0, address);
    text[2] = SPACE;
    put_hex(text, 3, (n / 256) as u8);
    put_hex(text, 5, (n % 256) as u8);
    text[7] = NEWLINE;
}

// The line of the answer at `from`.
fn put_line(text: &mut [u8], at: usize, answers: &[u8], from: usize)
    requires { (at + line_chars ≤ length text.old) × (from + event_bytes ≤ length answers.now) }
    ensures { text.new ≡ sets text.old at (line_in (drop from answers.now)) }
{
    put_hex(text, at, answers[from]);
    put_hex(text, at + 2, answers[from + 1]);
    put_hex(text, at + 4, answers[from + 2]);
    put_hex(text, at + 6, answers[from + 3]);
    text[at + 8] = NEWLINE;
}

// The lines of n answers after the head's.
fn put_lines(text: &mut [u8], answers: &[u8], n: usize)
    requires { (head_chars + line_chars * n ≤ length text.old) × (event_bytes * n ≤ length answers.now) }
    ensures { text.new ≡ sets text.old head_chars (lines_in n answers.now) }
{
    for i in 0..n {
        put_line(text, HEAD_CHARS + LINE_CHARS * i, answers, EVENT_BYTES * i);
    }
}

// ---- the two kinds of listing

fn list_accepted(address: u8, n: usize, answers: &[u8], text: &mut [u8]) -> usize
    requires { (n ≤ most_events) × (event_bytes * n ≤ length answers.now) }
    ensures { (result ≡ length (head_line address n ++ lines_in n answers.now)) × (text.new ≡ fitted (head_line address n ++ lines_in n answers.now) text.old) }
{
    let needed = HEAD_CHARS + LINE_CHARS * n;
    if text.len() < needed {
        return needed;
    }
    put_head(text, address, n);
    put_lines(text, answers, n);
    needed
}

// A whole text at the start of the buffer, if it has room.
fn put_whole(text: &mut [u8], written: &[u8]) -> usize
    ensures { (result ≡ length written.now) × (text.new ≡ fitted written.now text.old) }
{
    let n = written.len();
    if n <= text.len() {
        text[..n].copy_from_slice(written);
    }
    n
}

// R, the number in one digit or two, and the end of the line.
fn list_refused(number: u8, text: &mut [u8]) -> usize
    requires { number < 100 }
    ensures { (result ≡ length (refusal_line number)) × (text.new ≡ fitted (refusal_line number) text.old) }
{
    if number < 10 {
        put_whole(text, &[REFUSED, 0x30 + number, NEWLINE])
    } else {
        let line = [REFUSED, 0x30 + number / 10, 0x30 + number % 10, NEWLINE];
        put_whole(text, &line)
    }
}

// Room for the answers of any trace.
fn answer_room() -> [u8; ANSWER_ROOM]
    ensures { answer_room ≡ length result }
{
    [0; ANSWER_ROOM]
}

// The listing, by way of a buffer that holds the answers.
fn list_by(t: &[u8], answers: &mut [u8], text: &mut [u8]) -> usize
    requires { answer_room ≡ length answers.old }
    ensures { (result ≡ length (listing t.now)) × (text.new ≡ text_after t.now text.old) }
{
    match answer_trace(t, answers) {
        Ok(head) => list_accepted(head.address, head.events, answers, text),
        Err(refused) => list_refused(refusal_number(refused.refusal), text),
    }
}

// The listing of any byte sequence. The result is its length, at most LISTING_ROOM; it is written if it fits into the lent buffer, and else
// the buffer stays.
pub fn list_trace(t: &[u8], text: &mut [u8]) -> usize
    ensures upper_bound { result ≤ most_chars }
    ensures value { (result ≡ length (listing t.now)) × (text.new ≡ text_after t.now text.old) }
{
    let mut answers = answer_room();
    list_by(t, &mut answers, text)
}
