//! Handlers that are counted.
use hm_data::{StepIn, StepOut};
use hm_sheet::{Handler, Valid};
use hm_tables::TableHands;
use std::alloc::{AllocError, Global};

/// Answers so many steps as its tables do, and from then on that memory ran out.
#[derive(Drop)]
pub(crate) struct Counted {
    tables: TableHands,
    left: u64,
}

impl Counted {
    pub(crate) fn new(alloc: Global, left: u64) -> Result<Counted, AllocError> {
        let tables = TableHands::new(alloc)?;
        Ok(Counted { tables, left })
    }
}

impl Handler for Counted {
    ghost sheets_are = { λ hands. ⟦<TableHands as Handler>⟧.sheets_are hands.tables };

    ghost steps_are = { λ hands. ⟦<TableHands as Handler>⟧.steps_are hands.tables };

    ghost undos_are = { λ hands. ⟦<TableHands as Handler>⟧.undos_are hands.tables };

    fn sheets(&self) -> &[Valid] {
        self.tables.sheets()
    }

    fn calls(&self) -> u64 {
        self.tables.calls()
    }

    fn step(&mut self, alloc: Global, at: &StepIn, out: &mut StepOut) -> Result<(), AllocError> {
        if self.left == 0 {
            return Err(AllocError);
        }
        self.left -= 1;
        self.tables.step(alloc, at, out)
    }

    fn undo(&mut self, alloc: Global, at: &StepIn, out: &mut StepOut) -> Result<(), AllocError> {
        self.tables.undo(alloc, at, out)
    }
}
