// How long a controller can wait by a complete pair of sheets: behind what they order for the other one.
ghost use Rattle.std.specs.Prelude.{◌≡◌, Ok};
ghost use Rattle.sheets.specs.Waits.{wait_behind, wait_on, wait_of, wait_told};

use crate::pair::{Pair, pair_of};
use crate::settings::{is_complete, setting_of};
use crate::sheet::check_pair;
use crate::{Bound, Fault, Setting};
use arbiter::Kind;
use fields::limit_of;
use format::{is_kind, kind_of};

// Behind a holder with these settings: a reserve runs out, and its STOP has one tick more; reserve 00h never does, so that only the idle timer
// is left, by which a part takes the bus from its holder after so many idle ticks.
#[tactic(auto, unfolding(crate::specs::Waits::wait_behind))]
fn wait_behind(kind: Kind, holder: Setting) -> Bound
    ensures { wait_told (Ok result) ≡ wait_behind kind holder }
{
    if 0 < holder.reserve {
        Bound::BehindLive(u16::from(holder.reserve) + 1)
    } else if holder.idle {
        Bound::BehindSilent(u16::from(limit_of(kind)))
    } else {
        Bound::Unbounded
    }
}

#[tactic(auto, unfolding(crate::specs::Waits::wait_on))]
fn wait_on(pair: Pair, controller: u8, kind: u8) -> Result<Bound, Fault>
    ensures { wait_told result ≡ wait_on controller kind pair.entry.board.bytes.now pair.entry.house.bytes.now }
{
    if 2 <= controller {
        return Err(Fault::NoSuchBox);
    }
    if !is_kind(kind) {
        return Err(Fault::BadBox);
    }
    if !is_complete(pair.board, pair.house) {
        return Err(Fault::Unticked);
    }
    Ok(wait_behind(kind_of(kind), setting_of(pair, 1 - usize::from(controller))))
}

// How long `controller` can wait by these two sheets, on a part of this kind.
#[tactic(auto, unfolding(crate::specs::Waits::wait_of))]
pub fn wait_of(board: &[u8], house: &[u8], controller: u8, kind: u8) -> Result<Bound, Fault>
    ensures { wait_told result ≡ wait_of controller kind board.now house.now }
{
    check_pair(board, house)?;
    wait_on(pair_of(board, house), controller, kind)
}
