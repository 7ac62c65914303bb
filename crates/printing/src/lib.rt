// What the programs share: a stream read into a buffer, and the listing of a trace on a stream.
#![tactic(auto)]

ghost use Rattle.std.specs.Prelude.{◌≡◌, ◌≤◌, ◌<◌, length, take, Some, IfOk, IfSome, OnOk};
ghost use Rattle.std.specs.Io.KnownBytes.{Appends, Consumes, IsAtEnd};
ghost use Rattle.arbiter.specs.Listing.{hex2, listing};

use std::{fmt, io, str};
use text::{LISTING_ROOM, high_digit, list_trace, low_digit};

// A byte in two digits of capital hex.
#[derive(Clone, Copy)]
pub struct Hex(pub u8);

impl fmt::Display for Hex {
    ghost output = { λ h. Some (hex2 h.0) };

    fn fmt<W: fmt::Write>(&self, f: &mut fmt::Formatter<W>) -> fmt::Result {
        let digits = [high_digit(self.0), low_digit(self.0)];
        match str::from_utf8(&digits) {
            Ok(text) => f.write_str(text),
            Err(_) => Err(fmt::Error),
        }
    }
}

// Reads until the buffer is full or the stream ends, and answers how many bytes it put at the buffer's front. Where the stream's bytes are known
// they are its next ones, and fewer than the buffer has room for only at its end.
pub fn read_full<R: io::Read>(from: &mut R, buffer: &mut [u8]) -> io::Result<usize>
    ensures bound { IfOk result (λ n. n ≤ length buffer.new) }
    ensures bytes { IfOk result (λ n. Consumes (R.remaining from.old) (R.remaining from.new) (take n buffer.new)) }
    ensures front { IfOk result (λ n. IfSome (R.remaining from.old) (λ xs. take n buffer.new ≡ take (length buffer.new) xs)) }
    ensures end { IfOk result (λ n. n < length buffer.new → IsAtEnd (R.remaining from.new)) }
{
    let mut done = 0;
    // (A loop of its own: read_exact does not tell how many bytes came before the end, and read_to_end wants a Vec.)
    while done < buffer.len() {
        let n = from.read(&mut buffer[done..])?;
        if n == 0 {
            break;
        }
        done += n;
    }
    Ok(done)
}

// Writes the listing of a trace to a stream. What the operating system took no contract can say.
pub fn print_listing<W: io::Write>(out: &mut W, trace: &[u8]) -> io::Result<()>
    ensures { OnOk result (Appends (W.contents out.old) (W.contents out.new) (listing trace.now)) }
{
    let mut text = [0u8; LISTING_ROOM];
    let n = list_trace(trace, &mut text);
    out.write_all(&text[..n])
}
