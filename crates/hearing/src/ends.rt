// A byte's end: what is awaited after it, and what it gives.
ghost use Rattle.std.specs.Prelude.{◌≡◌};
ghost use Rattle.capture.specs.OneBus.{addressed, awaited_after, byte_gives, owes, is_outside};

use arbiter::{Event, Master};
use capture::{Awaited, Given};

#[tactic(auto, unfolding(capture::specs::OneBus::addressed))]
fn addressed_by(address: u8, v: u8) -> Awaited
    ensures { result ≡ addressed address v }
{
    if v == 0 {
        Awaited::CallByte
    } else if v / 2 == address {
        if v % 2 == 1 {
            Awaited::ReadByte
        } else {
            Awaited::CommandByte
        }
    } else {
        Awaited::SkippedByte
    }
}

#[tactic(auto, unfolding(capture::specs::OneBus::awaited_after))]
pub(crate) fn awaited_after(address: u8, awaited: Awaited, v: u8) -> Awaited
    ensures { result ≡ awaited_after address awaited v }
{
    match awaited {
        Awaited::AddressByte => addressed_by(address, v),
        Awaited::CommandByte => Awaited::WriteByte,
        Awaited::CallByte => Awaited::SkippedByte,
        _ => awaited,
    }
}

#[tactic(auto, unfolding(capture::specs::OneBus::byte_gives))]
pub(crate) fn byte_gives(m: Master, awaited: Awaited, v: u8) -> Option<Given>
    ensures { result ≡ byte_gives m awaited v }
{
    match awaited {
        Awaited::CommandByte => Some(Given::Gives(Event::Command(m, v))),
        Awaited::WriteByte => Some(Given::Written(v)),
        Awaited::ReadByte => Some(Given::Gives(Event::Read(m))),
        Awaited::CallByte => Some(Given::Gives(Event::GeneralCall(m, v))),
        Awaited::NoByte | Awaited::AddressByte | Awaited::SkippedByte => None,
    }
}

#[tactic(auto, unfolding(capture::specs::OneBus::owes))]
pub(crate) fn is_owing(awaited: Awaited) -> bool
    ensures { result ≡ owes awaited }
{
    matches!(awaited, Awaited::CommandByte | Awaited::ReadByte)
}

#[tactic(auto, unfolding(capture::specs::OneBus::is_outside))]
pub(crate) fn is_outside(awaited: Awaited) -> bool
    ensures { result ≡ is_outside awaited }
{
    awaited == Awaited::NoByte
}
