//! What a disk has been through. It is there for proofs alone, and takes no memory.
ghost use Rattle.std.specs.Prelude.{◌≡◌, List, [], ◌∷◌};
ghost use Rattle.std.specs.Borrow.{ftrue};
ghost use Rattle.hm_disk.specs.Past.{Event};

use std::marker::Model;

// A list of events, the newest first. Nothing but the clauses ties it to what happened.
#[derive(Drop)]
pub struct Past {
    ghost events: { List Event },
}

impl Model for Past {
    ghost also_owns = { λ _. ftrue };
}

// It owns nothing.
unsafe impl Send for Past {}

// What changes what a stop may leave.
#[derive(Clone, Copy)]
pub enum Step<'a> {
    Wrote(u64, &'a [u8]),
    Cut(u64),
    Synced(&'a [u8]),
}

impl Past {
    ghost use Rattle.hm_disk.specs.Noted.{event_of};

    pub(crate) fn new() -> Past
        ensures { result.events ≡ [] }
    {
        Past {}
    }

    pub(crate) fn then(&self, _step: &Step<'_>) -> Past
        ensures { result.events ≡ event_of _step.now ∷ self.now.events }
    {
        Past {}
    }
}
