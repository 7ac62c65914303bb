// The bus share for Rust and C: 17 totals in a lent buffer, and the number that is told of them.
#![tactic(auto)]

ghost use Rattle.std.specs.Prelude.{◌≡◌};
ghost use Rattle.share.specs.Share.{told_number};
ghost use Rattle.share.specs.Lent.{lent_number, lent_after, join_number, join_after};

use share::lent::{add_totals, join_lent};
use share::{Uncounted, uncounted_number};

// 0 for what was counted, and else the refusal's number.
fn number_of(told: Result<(), Uncounted>) -> u32
    ensures { result ≡ told_number told }
{
    match told {
        Ok(()) => 0,
        Err(why) => u32::from(uncounted_number(why)),
    }
}

// A trace added to the totals.
pub fn add_packed(trace: &[u8], totals: &mut [u64]) -> u32
    ensures { (result ≡ lent_number totals.old trace.now) × (totals.new ≡ lent_after totals.old trace.now) }
{
    number_of(add_totals(totals, trace))
}

// The totals of other traces joined to the totals.
pub fn join_packed(other: &[u64], totals: &mut [u64]) -> u32
    ensures { (result ≡ join_number totals.old other.now) × (totals.new ≡ join_after totals.old other.now) }
{
    number_of(join_lent(totals, other))
}
