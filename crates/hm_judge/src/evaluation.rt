//! The rules of an evaluation: a step, or what undoes one, is as its sheet says.
ghost use Rattle.std.specs.Prelude.{◌≡◌, ◌↔◌, IfErr, IfOk, IsTrue, Ok, OnOk, Some, true};
ghost use Rattle.std.specs.Option.{option_copied};
ghost use Rattle.hm_model.specs.Evaluation.{CanRun, answer_of};
ghost use Rattle.hm_model.specs.Inputs.{IsEvaluated};
ghost use Rattle.hm_model.specs.Rules.{Allowed};
ghost use Rattle.hm_judge.specs.Inputs.{CanEvaluate};
ghost use Rattle.hm_judge.specs.Judge.{HoldsBut, IsRefusal, IsWhy};

use crate::inputs::step_in;
use crate::seen::root_of;
use crate::why::NotAllowed;
use hm_data::{Entry, StepIn, StepOut};
use hm_names::{Pid, Same, ServerName};
use hm_records::Records;
use hm_sheet::{Valid, answer};
use std::alloc::{AllocError, Global};

// Whether this is what the sheet of an input says there.
fn is_said(alloc: Global, sheets: &[Valid], at: &StepIn, out: &StepOut) -> Result<bool, AllocError>
    requires { CanRun sheets.now at.now }
    ensures { IfOk result (λ same. IsTrue same ↔ (answer_of sheets.now at.now ≡ Some out.now)) }
{
    let said = answer(alloc, sheets, at)?;
    Ok(said.same(out))
}

// Whether this is what the next call of a procedure's handler answers.
fn is_evaluated(
    alloc: Global,
    records: &Records,
    pid: Pid,
    pick: Option<&ServerName>,
    out: &StepOut,
) -> Result<bool, AllocError>
    requires { CanEvaluate records.now.past pid.0 (option_copied pick) }
    ensures { IfOk result (λ same. IsTrue same ↔ IsEvaluated records.now.past pid.0 (option_copied pick.entry) out.now) }
{
    let _legal = records.procedures();
    let at = step_in(alloc, records, pid, pick)?;
    let said = is_said(alloc, records.sheets_of(at.edition), &at, out);
    drop(at);
    said
}

// Refuses by the number of a rule, unless what was compared is the same; or as memory ran out.
fn compared(number: u8, same: Result<bool, AllocError>) -> Result<(), NotAllowed>
    ensures ok { OnOk result (same ≡ Ok true) }
    ensures why { IfErr result (IsRefusal number same) }
{
    match same {
        Ok(true) => Ok(()),
        Ok(false) => Err(NotAllowed::Rule(number)),
        Err(_) => Err(NotAllowed::Memory),
    }
}

// Judges an entry whose other rules hold by its evaluation, if it has one.
pub(crate) fn evaluated(alloc: Global, records: &Records, entry: &Entry) -> Result<(), NotAllowed>
    requires { HoldsBut records.now.past entry.now }
    ensures ok { OnOk result (Allowed records.now.past entry.now) }
    ensures why { IfErr result (IsWhy records.now.past entry.now) }
{
    match entry {
        Entry::Step { pid, pick, out } => {
            compared(8, is_evaluated(alloc, records, *pid, pick.as_ref(), out))
        }
        Entry::Undo { pid, row: _, out } => {
            let root = root_of(records, *pid);
            compared(10, is_evaluated(alloc, records, root, None, out))
        }
        Entry::Start { .. }
        | Entry::Submit { .. }
        | Entry::Report { .. }
        | Entry::Up { .. }
        | Entry::Down { .. }
        | Entry::Abort { .. }
        | Entry::Base { .. }
        | Entry::Adopt { .. } => Ok(()),
    }
}
