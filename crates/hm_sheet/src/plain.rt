ghost use Rattle.std.specs.Prelude.{◌≡◌, ◌<◌, IfOk, Some, length, slice_get};
ghost use Rattle.hm_model.specs.Evaluation.{CanStep, sheet_answer, picks};

use crate::valid::Valid;
use hm_acts::{picks_at_row, row_out};
use hm_data::{Row, Sheet, StepIn, StepOut};
use std::alloc::{AllocError, Global};

/// Whether a step of the sheet at the input places a region, so that a server has to be picked.
pub fn needs_pick(sheet: &Valid, at: &StepIn) -> bool
    ensures { result ≡ picks sheet.now at.now }
{
    match sheet.sheet().rows.as_slice().get(usize::from(at.row)) {
        None => false,
        Some(row) => picks_at_row(*row, at),
    }
}

fn nth_row(rows: &[Row], place: u8) -> Row
    requires { place < length rows.now }
    ensures { slice_get rows.now place ≡ Some result }
{
    rows[usize::from(place)]
}

/// What the sheet says at the input: what a step at its row answers and does, or what undoing one does. It is a function
/// of the sheet and the input alone. A step of an aborted procedure fails at a row that isn't after the point.
pub fn plain_step(alloc: Global, sheet: &Valid, at: &StepIn) -> Result<StepOut, AllocError>
    requires { CanStep sheet.now at.now }
    ensures { IfOk result (λ out. sheet_answer sheet.now at.now ≡ Some out) }
{
    sheet_step(alloc, sheet.sheet(), at)
}

/// The same of a sheet.
pub(crate) fn sheet_step(alloc: Global, sheet: &Sheet, at: &StepIn) -> Result<StepOut, AllocError>
    requires { CanStep sheet.now at.now }
    ensures { IfOk result (λ out. sheet_answer sheet.now at.now ≡ Some out) }
{
    let row = nth_row(sheet.rows.as_slice(), at.row);
    row_out(alloc, row, at)
}
