// A master's port: at rest or open for writing, and what COMMAND and STOP do to its side.
#![tactic(auto)]

ghost use Rattle.std.specs.Prelude.{◌≡◌, if◌then◌else◌};
ghost use Rattle.arbiter.specs.Parts.{with_port};
ghost use Rattle.arbiter.specs.State.{at_rest, for_writing};
ghost use Rattle.arbiter.specs.Effects.{commanded};
ghost use Rattle.arbiter.specs.declared.Port.TheVariants.{Rest, Open, Writing};

use arbiter::{Port, Side};
use bits::pick;
use fields::register_at;

pub fn is_at_rest(p: Port) -> bool
    ensures { result ≡ at_rest p }
{
    p == Port::Rest
}

pub fn is_for_writing(p: Port) -> bool
    ensures { result ≡ for_writing p }
{
    p == Port::Writing
}

// ---- COMMAND

fn opened(for_writing: bool) -> Port
    ensures { result ≡ (if for_writing then Writing else Open) }
{
    if for_writing {
        Port::Writing
    } else {
        Port::Open
    }
}

#[tactic(auto, using(crate::proofs::Laws::commanded_law))]
pub fn commanded_side(c: u8, s: Side) -> Side
    ensures { result ≡ commanded c s }
{
    let good = c / 8 % 16 == 0;
    Side {
        pointer: pick(good, register_at(c % 8), s.pointer),
        auto: pick(good, c / 128 % 2 == 1, s.auto),
        port: opened(good),
        ..s
    }
}

// ---- STOP

pub fn stopped_side(s: Side) -> Side
    ensures { result ≡ with_port Rest s }
{
    Side {
        port: Port::Rest,
        ..s
    }
}
