//! An entry for which there is room.
ghost use Rattle.std.specs.Prelude.{◌≡◌, drop};
ghost use Rattle.hm_procedures.specs.Kept.{args_made};
ghost use Rattle.hm_records.specs.Parts.{AreParts};

use hm_data::{Args, Entry};
use hm_procedures::Journal;
use hm_records::Parts;
use std::marker::Model;

/// An entry for which there is room. Contracts see the entry and the journal that it was made ready for.
#[derive(Drop)]
pub struct Ready {
    // The journal with the entry, for proofs alone.
    pub(crate) journal: Journal,
    pub(crate) entry: Entry,
    pub(crate) parts: Parts,
}

impl Model for Ready {
    ghost use Rattle.std.specs.Prelude.{drop};
    ghost use Rattle.hm_records.specs.Parts.{AreParts};
    ghost use Rattle.hm_state.specs.Ready.{ReadyView};

    ghost Value = { ReadyView };

    ghost view = { λ s. record { entry = s.entry; past = drop 1 s.journal.entries } };

    ghost invariant = { λ s. AreParts (drop 1 s.journal.entries) s.entry s.parts };
}

impl Ready {
    /// The entry.
    pub fn entry(&self) -> &Entry
        ensures { result.now ≡ self.now.entry }
    {
        &self.entry
    }

    /// What the procedures that it makes work on, in order.
    pub fn made(&self) -> &[Args]
        ensures { result.now ≡ args_made self.now.past self.now.entry }
    {
        self.parts.made()
    }

    // An entry with what is kept of it after the journal, which has it.
    pub(crate) fn with(journal: Journal, entry: Entry, parts: Parts) -> Ready
        requires { AreParts (drop 1 journal.entries) entry parts }
        ensures entry { result.entry ≡ entry }
        ensures past { result.past ≡ drop 1 journal.entries }
    {
        Ready {
            journal,
            entry,
            parts,
        }
    }
}
