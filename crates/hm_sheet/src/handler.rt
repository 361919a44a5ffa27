ghost use Rattle.std.specs.Prelude.{◌≡◌, ℕ, ◌+◌, ◌-◌, ◌^◌, min, List, OnOk, OnErr, Some};
ghost use Rattle.hm_data.specs.declared.sheet.Sheet.{Sheet};
ghost use Rattle.hm_model.specs.Evaluation.{CanRun, answer_of};
ghost use Rattle.hm_sheet.specs.Words.{risen};

use crate::valid::Valid;
use hm_data::{StepIn, StepOut};
use std::alloc::{AllocError, Global};

/// An object that runs the rows of its sheets.
pub trait Handler: Send + Drop {
    ghost sheets_are: { Self → List Sheet };

    ghost steps_are: { Self → ℕ };

    ghost undos_are: { Self → ℕ };

    /// The sheets. They never change.
    fn sheets(&self) -> &[Valid]
        ensures { result.now ≡ sheets_are self.now };

    /// How many calls of `step` and `undo` were answered. Each of the two numbers and their sum stay at 2^64 - 1.
    fn calls(&self) -> u64
        ensures { result ≡ min (steps_are self.now + undos_are self.now) (2 ^ 64 - 1) };

    /// Leaves in `out` what the sheet of the input's kind says, whatever was called before. Where memory runs out `out` is
    /// any value, and isn't to be used.
    fn step(&mut self, alloc: Global, at: &StepIn, out: &mut StepOut) -> Result<(), AllocError>
        requires { CanRun (sheets_are self.old) at.now }
        ensures out { OnOk result (answer_of (sheets_are self.old) at.now ≡ Some out.new) }
        ensures sheets { sheets_are self.new ≡ sheets_are self.old }
        ensures steps { OnOk result (steps_are self.new ≡ risen (steps_are self.old)) }
        ensures idle { OnErr result (steps_are self.new ≡ steps_are self.old) }
        ensures undos { undos_are self.new ≡ undos_are self.old };

    /// The same for an input that undoes a step.
    fn undo(&mut self, alloc: Global, at: &StepIn, out: &mut StepOut) -> Result<(), AllocError>
        requires { CanRun (sheets_are self.old) at.now }
        ensures out { OnOk result (answer_of (sheets_are self.old) at.now ≡ Some out.new) }
        ensures sheets { sheets_are self.new ≡ sheets_are self.old }
        ensures undos { OnOk result (undos_are self.new ≡ risen (undos_are self.old)) }
        ensures idle { OnErr result (undos_are self.new ≡ undos_are self.old) }
        ensures steps { steps_are self.new ≡ steps_are self.old };
}
