//! Handlers of splits and merges that have no memory: each call of theirs tells so.
use hm_data::{StepIn, StepOut};
use hm_names::List;
use hm_sheet::{Handler, Valid, own_sheet};
use std::alloc::{AllocError, Global};

/// Has the sheets of splits and merges, and no memory to run them.
#[derive(Drop)]
pub struct Spent {
    sheets: List<Valid>,
}

impl Spent {
    /// One with this sheet of splits.
    pub fn new(alloc: Global, splits: Valid) -> Result<Spent, AllocError> {
        let mut sheets = Vec::new(alloc);
        sheets.push(splits)?;
        sheets.push(own_sheet(alloc, 9)?)?;
        Ok(Spent {
            sheets: List::of(sheets),
        })
    }
}

impl Handler for Spent {
    ghost sheets_are = { λ hands. hands.sheets };

    ghost steps_are = { λ _. 0 };

    ghost undos_are = { λ _. 0 };

    fn sheets(&self) -> &[Valid] {
        self.sheets.as_slice()
    }

    fn calls(&self) -> u64 {
        0
    }

    fn step(&mut self, _alloc: Global, _at: &StepIn, _out: &mut StepOut) -> Result<(), AllocError> {
        Err(AllocError)
    }

    fn undo(&mut self, _alloc: Global, _at: &StepIn, _out: &mut StepOut) -> Result<(), AllocError> {
        Err(AllocError)
    }
}
