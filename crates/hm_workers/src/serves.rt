//! What runs the rows of sheets for a worker.
ghost use Rattle.std.specs.Prelude.{◌≡◌, ℕ, IfOk, OnOk, OnErr};
ghost use Rattle.hm_lend.specs.Hall.{Answers, CanBeServed, Editions};
ghost use Rattle.hm_sheet.specs.Words.{risen};

use hm_data::{StepIn, StepOut};
use std::alloc::{AllocError, Global};

/// Runs the rows of the sheets of each edition, and counts how often. What is known of it is plain, so that it goes with it
/// to another thread.
pub trait Serves {
    // The sheets that it has for each edition.
    ghost editions: { Self → Editions };

    // How many calls it answered.
    ghost runs: { Self → ℕ };

    /// What the sheet of the input's kind says, in its edition, whatever was served before. Memory may run out.
    fn serve(&mut self, alloc: Global, at: &StepIn) -> Result<StepOut, AllocError>
        requires { CanBeServed (editions self.old) at.now }
        ensures out { IfOk result (λ out. Answers (editions self.old) at.now out) }
        ensures editions { editions self.new ≡ editions self.old }
        ensures runs { OnOk result (runs self.new ≡ risen (runs self.old)) }
        ensures idle { OnErr result (runs self.new ≡ runs self.old) };
}
