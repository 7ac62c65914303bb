// Whether a buffer is that of a listener with its fields in range. What is a byte always fits, so the bytes of numbers and the bits of a byte in hand
// are not looked at: the promise says it of them too.
ghost use Rattle.std.specs.Prelude.{◌+◌, ◌<◌, ◌≡◌, length};
ghost use Rattle.watchlayout.specs.Places.{watch_length, fits_at, settings_fit, bus_fits, ear_fits, check_fits, tally_fits, watch_in_range};
ghost use Rattle.watchlayout.specs.Refusals.{number_of};
ghost use Rattle.watchlayout.specs.Calls.{watch_number};

use format::byte_at;
use image::check_image;
use layout::IMAGE_LENGTH;
use watchlayout::{WATCH_LENGTH, WatchRefusal};

// A field of one byte is no more than its top.
fn fits(at: usize, top: u8, b: &[u8]) -> bool
    ensures { result ≡ fits_at at top b.now }
{
    byte_at(at, b) <= top
}

fn settings_fit(b: &[u8]) -> bool
    ensures { result ≡ settings_fit b.now }
{
    fits(43, 1, b)
}

fn bus_fits(at: usize, b: &[u8]) -> bool
    requires { at < 200 }
    ensures { result ≡ bus_fits at b.now }
{
    fits(at, 6, b) & fits(at + 3, 1, b)
}

fn ear_fits(b: &[u8]) -> bool
    ensures { result ≡ ear_fits b.now }
{
    fits(44, 1, b) & bus_fits(50, b) & bus_fits(54, b)
}

fn check_fits(at: usize, b: &[u8]) -> bool
    requires { at < 200 }
    ensures { result ≡ check_fits at b.now }
{
    fits(at + 8, 1, b) & fits(at + 9, 7, b)
}

fn tally_fits(b: &[u8]) -> bool
    ensures { result ≡ tally_fits b.now }
{
    check_fits(106, b) & check_fits(118, b) & check_fits(130, b)
}

fn in_range(b: &[u8]) -> bool
    requires { length b.now ≡ watch_length }
    ensures { result ≡ watch_in_range b.now }
{
    check_image(&b[..IMAGE_LENGTH]).is_ok() & settings_fit(b) & ear_fits(b) & tally_fits(b)
}

// A listener has its length, and every field in its range.
#[tactic(auto, unfolding(watchlayout::specs::Calls::watch_number, watchlayout::specs::Refusals::number_of))]
pub(crate) fn check_watch(b: &[u8]) -> Result<(), WatchRefusal>
    ensures { number_of result ≡ watch_number b.now }
{
    if b.len() != WATCH_LENGTH {
        Err(WatchRefusal::Length)
    } else if in_range(b) {
        Ok(())
    } else {
        Err(WatchRefusal::Range)
    }
}
