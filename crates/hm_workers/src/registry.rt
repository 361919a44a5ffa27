//! A registry of boxed handlers serves by the sheets that it has for each edition, which go with it to another thread.
ghost use Rattle.hm_sheet.specs.Registry.{runs_of, sheets_at};

use crate::serves::Serves;
use hm_data::{Answer, StepIn, StepOut};
use hm_names::List;
use hm_sheet::Registry;
use std::alloc::{AllocError, Global};

// What a run replaces.
fn nothing(alloc: Global) -> StepOut {
    StepOut {
        answer: Answer::Undone,
        edits: List::of(Vec::new(alloc)),
        children: List::of(Vec::new(alloc)),
        call: None,
        place: None,
        followers: List::of(Vec::new(alloc)),
    }
}

/// It calls the box of the input's kind where the box's sheet is that of the input's edition, and else answers by the sheet
/// of the edition alone.
impl Serves for Registry {
    ghost editions = { λ registry. sheets_at registry };

    ghost runs = { λ registry. runs_of registry };

    fn serve(&mut self, alloc: Global, at: &StepIn) -> Result<StepOut, AllocError> {
        let mut out = nothing(alloc);
        self.run(alloc, at, &mut out)?;
        Ok(out)
    }
}
