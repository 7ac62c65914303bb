// The totals in a lent buffer of 17 numbers, in the order of the record.
ghost use Rattle.std.specs.Prelude.{◌≡◌, length};
ghost use Rattle.share.specs.Share.{told_number};
ghost use Rattle.share.specs.Lent.{total_count, totals_in, totals_list, lent_number, lent_after, lent_told, join_number, join_after, lent_joined_told};

use crate::{Totals, Uncounted, add_trace, join};

pub const TOTAL_COUNT: usize = 17;

fn totals_in(b: &[u64]) -> Totals
    requires { length b.now ≡ total_count }
    ensures { result ≡ totals_in b.now }
{
    Totals {
        traces: b[0],
        ticks: b[1],
        owned0: b[2],
        owned1: b[3],
        unowned: b[4],
        connected0: b[5],
        connected1: b[6],
        waited0: b[7],
        waited1: b[8],
        longest0: b[9],
        longest1: b[10],
        refused3: b[11],
        refused5: b[12],
        refused6: b[13],
        refused7: b[14],
        refused8: b[15],
        refused10: b[16],
    }
}

fn put_totals(b: &mut [u64], x: Totals)
    requires { length b.old ≡ total_count }
    ensures { b.new ≡ totals_list x }
{
    b[0] = x.traces;
    b[1] = x.ticks;
    b[2] = x.owned0;
    b[3] = x.owned1;
    b[4] = x.unowned;
    b[5] = x.connected0;
    b[6] = x.connected1;
    b[7] = x.waited0;
    b[8] = x.waited1;
    b[9] = x.longest0;
    b[10] = x.longest1;
    b[11] = x.refused3;
    b[12] = x.refused5;
    b[13] = x.refused6;
    b[14] = x.refused7;
    b[15] = x.refused8;
    b[16] = x.refused10;
}

// A trace added to the totals in this buffer. A buffer of another length is refused and stays as it is.
pub fn add_totals(totals: &mut [u64], t: &[u8]) -> Result<(), Uncounted>
    ensures { (result ≡ lent_told totals.old t.now) × (told_number result ≡ lent_number totals.old t.now) × (totals.new ≡ lent_after totals.old t.now) }
{
    if totals.len() != TOTAL_COUNT {
        return Err(Uncounted::OtherLength);
    }
    let mut sum = totals_in(totals);
    let told = add_trace(&mut sum, t);
    put_totals(totals, sum);
    told
}

// Other totals joined to those in this buffer. A buffer of another length, the one or the other, is refused, and refused totals stay as they are.
pub fn join_lent(totals: &mut [u64], other: &[u64]) -> Result<(), Uncounted>
    ensures { (result ≡ lent_joined_told totals.old other.now) × (told_number result ≡ join_number totals.old other.now) × (totals.new ≡ join_after totals.old other.now) }
{
    if (totals.len() == TOTAL_COUNT) & (other.len() == TOTAL_COUNT) {
        let mut both = totals_in(totals);
        let joined = join(&mut both, totals_in(other));
        put_totals(totals, both);
        return joined;
    }
    Err(Uncounted::OtherLength)
}
