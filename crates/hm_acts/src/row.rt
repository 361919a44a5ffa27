ghost use Rattle.std.specs.Prelude.{◌≡◌, ◌≤◌, ◌<◌, ◌^◌, IfOk, Some};
ghost use Rattle.std.specs.List.{AllByRecursion};
ghost use Rattle.hm_model.specs.Evaluation.{named_ids, row_answer, turn_answer, picks_at};
ghost use Rattle.hm_model.specs.Views.{first_id_of};

use crate::acts::act_out;
use crate::outs::fails;
use crate::undo::undo_out;
use hm_data::{Act, Cause, Row, StepIn, StepOut, Turn};
use hm_views::row::{is_cut_off, wants_server};
use std::alloc::{AllocError, Global};

// A step: it fails where the procedure is cut off, else it answers by its act.
fn step_out(alloc: Global, row: Row, at: &StepIn) -> Result<StepOut, AllocError>
    requires ids { AllByRecursion (λ id. 1 ≤ id) (named_ids at.now.args) }
    requires first { first_id_of at.now.args < 2 ^ 32 }
    ensures { IfOk result (λ out. out ≡ row_answer row at.now) }
{
    if is_cut_off(row, at) {
        Ok(fails(alloc, Cause::Aborted))
    } else {
        act_out(alloc, row, at)
    }
}

/// What a row says at an input: what a step answers and does, or what undoing one does. It is a function of the row and the
/// input alone. A step of an aborted procedure fails at a row that isn't after the point.
pub fn row_out(alloc: Global, row: Row, at: &StepIn) -> Result<StepOut, AllocError>
    requires ids { AllByRecursion (λ id. 1 ≤ id) (named_ids at.now.args) }
    requires first { first_id_of at.now.args < 2 ^ 32 }
    ensures { IfOk result (λ out. out ≡ turn_answer row at.now at.now.turn) }
{
    match &at.turn {
        Turn::Step => step_out(alloc, row, at),
        Turn::Undo { edits } => undo_out(alloc, row.undo, at, edits.as_slice()),
    }
}

/// Whether a step of a row at an input places a region, so that a server has to be picked.
pub fn picks_at_row(row: Row, at: &StepIn) -> bool
    ensures { result ≡ picks_at (Some row) at.now }
{
    row.act == Act::GetAssignCandidate
        && matches!(&at.turn, Turn::Step)
        && !is_cut_off(row, at)
        && wants_server(at)
}
