// The lent device: the bench keeps one standing device, lends it to each step and finds the new state in it.
#![tactic(auto)]

ghost use Rattle.std.specs.Prelude.{◌≡◌};
ghost use Rattle.arbiter.specs.Steps.{step};
ghost use Rattle.lent.specs.Lent.{SteppedIn};

use arbiter::{Answer, Device, Raw, Stepped};
use step::step_device;

// One event on a lent device: the answer, and the device holds its new state. A refused event leaves it as it was.
pub fn step_lent(d: &mut Device, r: Raw) -> Answer
    ensures { SteppedIn d.old r d.new result }
{
    let s = step_device(*d, r);
    *d = s.device;
    s.answer
}

// The same with plain parameters, for callers that have no device to lend: a caller of this needs no walk by hand.
pub fn step_standing(d: Device, r: Raw) -> Stepped
    ensures { result ≡ step d r }
{
    let mut standing = d;
    let answer = step_lent(&mut standing, r);
    Stepped {
        device: standing,
        answer,
    }
}
