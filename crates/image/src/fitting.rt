// Whether every field of an image is in its range. A line for each row of the table, as crates/layout/specs/Layout.antt has them.
ghost use Rattle.std.specs.Prelude.{◌<◌, ◌≡◌, not, ◌&&◌, leb};
ghost use Rattle.arbiter.specs.Words.{bit};
ghost use Rattle.arbiter.specs.Traces.{byte_at};
ghost use Rattle.arbiter.specs.declared.Master.{Master};
ghost use Rattle.layout.specs.Layout.{registers, counts, shared, port, word_at, rows_fit, image_in_range};

use crate::{kind_in, word_in};
use arbiter::{HOLD_TICKS, SCL_HUNG_LIMIT, SDA_HUNG_LIMIT};
use fields::limit_of;
use layout::IMAGE_LENGTH;

// A field of one byte is no more than its top.
fn fits(at: usize, top: u8, b: &[u8; IMAGE_LENGTH]) -> bool
    requires { at < 38 }
    ensures { result ≡ leb (byte_at at b.now) top }
{
    b[at] <= top
}

// And one of two bytes.
fn word_fits(at: usize, top: u16, b: &[u8; IMAGE_LENGTH]) -> bool
    requires { at < 37 }
    ensures { result ≡ (leb (byte_at at b.now) 255 && leb (word_at at b.now) top) }
{
    fits(at, 255, b) & (word_in(at, b) <= top)
}

// CONTR has bit 1 clear.
fn contr_fits(at: usize, b: &[u8; IMAGE_LENGTH]) -> bool
    requires { at < 38 }
    ensures { result ≡ (leb (byte_at at b.now) 255 && not (bit 1 (byte_at at b.now))) }
{
    fits(at, 255, b) & !(b[at] / 2 % 2 == 1)
}

// The registers of either master, from its first one on.
#[tactic(auto, unfolding(layout::specs::Layout::rows_fit_too))]
fn registers_fit(at: usize, b: &[u8; IMAGE_LENGTH]) -> bool
    requires { at < 32 }
    ensures { (m : Master) → result ≡ rows_fit at (registers m) b.now }
{
    contr_fits(at, b)
        & fits(at + 1, 255, b)
        & fits(at + 2, 63, b)
        & fits(at + 3, 127, b)
        & fits(at + 4, 255, b)
        & fits(at + 5, 255, b)
        & fits(at + 6, 1, b)
}

#[tactic(auto, unfolding(layout::specs::Layout::rows_fit_too))]
fn counts_fit(b: &[u8; IMAGE_LENGTH]) -> bool
    ensures { result ≡ rows_fit 14 counts b.now }
{
    let limit = limit_of(kind_in(b));
    fits(14, 255, b)
        & fits(15, HOLD_TICKS, b)
        & word_fits(16, SCL_HUNG_LIMIT, b)
        & word_fits(18, SDA_HUNG_LIMIT, b)
        & fits(20, limit, b)
}

#[tactic(auto, unfolding(layout::specs::Layout::rows_fit_too))]
fn shared_fit(b: &[u8; IMAGE_LENGTH]) -> bool
    ensures { result ≡ rows_fit 21 shared b.now }
{
    fits(21, 1, b)
        & fits(22, 1, b)
        & fits(23, 1, b)
        & fits(24, 1, b)
        & fits(25, 1, b)
        & fits(26, 1, b)
        & fits(27, 12, b)
        & fits(28, 2, b)
        & fits(29, 20, b)
        & fits(30, 1, b)
}

// The port of either master, from its first byte on.
#[tactic(auto, unfolding(layout::specs::Layout::rows_fit_too))]
fn port_fits(at: usize, b: &[u8; IMAGE_LENGTH]) -> bool
    requires { at < 36 }
    ensures { (m : Master) → result ≡ rows_fit at (port m) b.now }
{
    fits(at, 2, b) & fits(at + 1, 7, b) & fits(at + 2, 1, b)
}

// Every field of an image is in its range.
pub(crate) fn in_range(b: &[u8; IMAGE_LENGTH]) -> bool
    ensures { result ≡ image_in_range b.now }
{
    registers_fit(0, b)
        & registers_fit(7, b)
        & counts_fit(b)
        & shared_fit(b)
        & fits(31, 1, b)
        & port_fits(32, b)
        & port_fits(35, b)
}
