//! A journal that stands for proofs alone, and takes no memory.
ghost use Rattle.std.specs.Prelude.{◌≡◌, List, [], ◌∷◌};
ghost use Rattle.std.specs.Borrow.{ftrue};
ghost use Rattle.hm_data.specs.declared.entry.Entry.{Entry as EntryOf};

use hm_data::Entry;
use std::marker::Model;

/// Entries back from the newest. Nothing but the clauses ties them to what happened.
#[derive(Drop)]
pub struct Journal {
    ghost entries: { List EntryOf },
}

impl Model for Journal {
    ghost also_owns = { λ _. ftrue };
}

// It owns nothing.
unsafe impl Send for Journal {}

impl Journal {
    pub(crate) fn new() -> Journal
        ensures { result.entries ≡ [] }
    {
        Journal {}
    }

    // With an entry more.
    pub(crate) fn then(&self, _entry: &Entry) -> Journal
        ensures { result.entries ≡ _entry.now ∷ self.now.entries }
    {
        Journal {}
    }
}
