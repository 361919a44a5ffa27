//! The trait of what records entries, which are written later, and those of a log that is lent, armed or given up.
ghost use Rattle.std.specs.Prelude.{◌≡◌, ◌≢◌, ◌≤◌, ◌↔◌, ℕ, MatchResult, OnErr, IsTrue, Some, None, false};
ghost use Rattle.hm_data.specs.declared.entry.Entry.{Entry as EntryValue};
ghost use Rattle.hm_hall.specs.Recording.{CanBeRecorded};
ghost use Rattle.hm_model.specs.Laws.{is_part};
ghost use Rattle.hm_lend.specs.Recording.{Recording, AllFit, Accepts, Records, full_at, next_of, out_of, with_next, halt_of};

use hm_data::Entry;
use hm_hall::{Halt, RecordFault};
use std::alloc::{AllocError, Global};

/// Records entries, one after another, and keeps them. What is recorded gathers, and is written later. An entry is made
/// ready first, which takes what memory it needs; recording it takes none and touches no device.
pub trait Recorder {
    /// What it keeps of its beginning.
    type Opened;

    // What was recorded, how much of it is durable, and what halted it.
    ghost kept: { Self → Recording };

    // How often what it records on failed.
    ghost faults: { Self → ℕ };

    // How it began, which no call of this trait changes.
    ghost opened: { Self → Self.Opened };

    // How many entries fit in the memory that it has.
    ghost room: { Self → ℕ };

    /// Whether an entry would be refused: it is halted, or the entry would pass the hard mark.
    fn will_refuse(&self, entry: &Entry) -> bool
        requires { CanBeRecorded entry.now }
        ensures { IsTrue result ↔ (Accepts (kept self.now) entry.now → ⊥) };

    /// Makes an entry that is no part of a base ready to be recorded, in place of one that was. Memory runs out only for an entry that
    /// would be recorded.
    fn ready(&mut self, alloc: Global, entry: &Entry) -> Result<(), AllocError>
        requires fits { CanBeRecorded entry.now }
        requires other { is_part entry.now ≡ false }
        ensures kept { MatchResult result
            (λ _. kept self.new ≡ with_next (kept self.old) entry.now)
            (λ _. kept self.new ≡ kept self.old) }
        ensures last { OnErr result (Accepts (kept self.old) entry.now) }
        ensures faults { faults self.new ≡ faults self.old }
        ensures opened { opened self.new ≡ opened self.old };

    /// Records the entry that is ready, and gives its place behind the base. It is durable once a flush wrote it.
    fn record_entry(&mut self) -> Result<u64, RecordFault>
        requires { next_of (kept self.old) ≢ None }
        ensures records { (entry : EntryValue) → next_of (kept self.old) ≡ Some entry →
            Records (kept self.old) entry result (kept self.new) }
        ensures faults { faults self.new ≡ faults self.old }
        ensures opened { opened self.new ≡ opened self.old }
        ensures room { room self.new ≡ room self.old };

    /// The bytes of the journal, where they have reached the soft mark.
    fn soft_full(&self) -> Option<u64>
        ensures { result ≡ full_at (kept self.now) };

    /// What halted it.
    fn halted(&self) -> Option<Halt>
        ensures halted { result ≡ halt_of (kept self.now) }
        ensures fits { AllFit (kept self.now) };
}
