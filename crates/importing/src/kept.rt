// The bytes of events, one after the other, in room for the most that a capture gives. It stands on the stack of the call.
ghost use Rattle.std.specs.Prelude.{ℕ, List, [], ◌∷◌, ◌++◌, ◌+◌, ◌*◌, ◌≤◌, ◌≡◌, length, take};

use crate::raw_of;
use arbiter::Event;
use std::marker::Model;

#[derive(Drop)]
pub(crate) struct Kept {
    room: [u8; 14560],
    used: usize,
}

impl Model for Kept {
    ghost Value = { List ℕ };

    ghost view = { λ k. take k.used k.room };

    ghost invariant = { λ k. k.used ≤ 14560 };
}

impl Kept {
    ghost use Rattle.capture.specs.Events.{event_bytes};
    ghost use Rattle.importing.specs.Listed.{listed};

    pub(crate) fn new() -> Self
        ensures { result ≡ [] }
    {
        Kept {
            room: [0; 14560],
            used: 0,
        }
    }

    pub(crate) fn push(&mut self, e: Event)
        requires { length self.old + 4 ≤ 14560 }
        ensures { self.new ≡ self.old ++ event_bytes (e ∷ []) }
    {
        let r = raw_of(e);
        let at = self.used;
        self.room[at..at + 4].copy_from_slice(&[r.kind, r.x, r.y, r.z]);
        self.used = at + 4;
    }

    #[tactic(auto, using(crate::proofs::Stored::room_for_one, crate::proofs::Stored::none_kept, crate::proofs::Stored::one_kept))]
    pub(crate) fn push_few(&mut self, few: Option<(Event, Option<Event>)>)
        requires { length self.old + 4 * length (listed few) ≤ 14560 }
        ensures { self.new ≡ self.old ++ event_bytes (listed few) }
    {
        if let Some((first, rest)) = few {
            self.push(first);
            if let Some(second) = rest {
                self.push(second);
            }
        }
    }

    pub(crate) fn bytes(&self) -> &[u8]
        ensures { result.now ≡ self.now }
    {
        &self.room[..self.used]
    }
}
