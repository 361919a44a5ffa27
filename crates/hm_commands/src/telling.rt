//! How what a call of the world answers is told. Want of memory has no line.
ghost use Rattle.std.specs.Prelude.{◌≡◌, Some};
ghost use Rattle.std.specs.Result.{result_ok};
ghost use Rattle.hm_model.specs.Sheets.{row_in, sheet_for as sheet_of};
ghost use Rattle.hm_commands.specs.RowNames.{act_at, act_of_row};
ghost use Rattle.hm_commands.specs.Telling.{halt_of_fault, told_abort, told_accepted, told_arming, told_death, told_down, told_fault, told_full, told_repeat, told_submit, told_up};

use crate::answer::{Answer, Refusal};
use hm_data::{Act, Sheet};
use hm_exec::{AbortRefused, Accepted, DownWhy, Refused, UpWhy};
use hm_hall::{HallFault, Halt};
use hm_names::{Pid, ServerName};
use hm_places::{DownRefused, UpRefused};
use hm_sheet::{Valid, sheet_for};
use hm_state::State;
use std::alloc::AllocError;

/// What halts a run at a fault.
pub(crate) fn halt_by(fault: HallFault) -> Option<Halt>
    ensures { result ≡ halt_of_fault fault }
{
    match fault {
        HallFault::LogFault => Some(Halt::LogFault),
        HallFault::JournalFull(bytes) => Some(Halt::JournalFull(bytes)),
        HallFault::Halted(why) => Some(why),
        HallFault::Memory => None,
    }
}

// A fault.
fn tell_fault(fault: HallFault) -> Result<Answer, AllocError>
    ensures { told_fault fault ≡ result_ok result }
{
    match halt_by(fault) {
        Some(why) => Ok(Answer::Halted(why)),
        None => Err(AllocError),
    }
}

// A journal that takes no submission: its hard mark halts the run, its soft mark doesn't.
fn tell_full(halted: Option<Halt>, bytes: u64) -> Answer
    ensures { told_full halted bytes ≡ Some result }
{
    match halted {
        Some(why) => Answer::Halted(why),
        None => Answer::Refused(Refusal::JournalFull(bytes)),
    }
}

// An accepted submission.
fn tell_accepted(accepted: Accepted) -> Answer
    ensures { told_accepted accepted.pid accepted.repeated ≡ Some result }
{
    if accepted.repeated {
        Answer::Repeated(accepted.pid.0)
    } else {
        Answer::Pid(accepted.pid.0)
    }
}

/// A submission, after which the run is halted so.
pub(crate) fn tell_submit(
    halted: Option<Halt>,
    outcome: Result<Accepted, Refused>,
) -> Result<Answer, AllocError>
    ensures { told_submit halted outcome ≡ result_ok result }
{
    match outcome {
        Ok(accepted) => Ok(tell_accepted(accepted)),
        Err(Refused::NonceClash(pid)) => Ok(Answer::Refused(Refusal::NonceClash(pid.0))),
        Err(Refused::BadArgs(number)) => Ok(Answer::Refused(Refusal::BadArgs(number))),
        Err(Refused::TooManyRegions(drawn)) => Ok(Answer::Refused(Refusal::TooManyRegions(drawn))),
        Err(Refused::JournalFull(bytes)) => Ok(tell_full(halted, bytes)),
        Err(Refused::Halted(why)) => Ok(Answer::Halted(why)),
        Err(Refused::LogFault) => Ok(Answer::Halted(Halt::LogFault)),
        Err(Refused::Memory) => Err(AllocError),
    }
}

// What a row of a sheet does.
fn act_in(sheet: &Sheet, row: u8) -> Option<Act>
    ensures { result ≡ act_of_row (row_in (Some sheet.now) row) }
{
    match sheet.rows.as_slice().get(row as usize) {
        Some(row) => Some(row.act),
        None => None,
    }
}

// What a row of the sheet of a kind does.
fn act_of_kind(sheets: &[Valid], kind: u8, row: u8) -> Option<Act>
    ensures { result ≡ act_of_row (row_in (sheet_of sheets.now kind) row) }
{
    match sheet_for(sheets, kind) {
        Some(valid) => act_in(valid.sheet(), row),
        None => None,
    }
}

// What a row of a procedure does, by the sheets of its edition.
fn act_of(state: &State, pid: Pid, row: u8) -> Option<Act>
    ensures { result ≡ act_at state.now.past pid.0 row }
{
    state.journal();
    match state.find(pid) {
        Some(record) => act_of_kind(state.sheets_of(record.edition), record.kind, row),
        None => None,
    }
}

/// An abort of a procedure.
pub(crate) fn tell_abort(
    state: &State,
    pid: Pid,
    outcome: Result<bool, AbortRefused>,
) -> Result<Answer, AllocError>
    ensures { told_abort state.now.past pid outcome ≡ result_ok result }
{
    match outcome {
        Ok(true) => Ok(Answer::AbortingAlready(pid.0)),
        Ok(false) => Ok(Answer::Aborting(pid.0)),
        Err(AbortRefused::Unknown) => Ok(Answer::Refused(Refusal::Unknown)),
        Err(AbortRefused::Child(root)) => Ok(Answer::Refused(Refusal::Child(root.0))),
        Err(AbortRefused::Finished(phase)) => Ok(Answer::Refused(Refusal::Finished(phase))),
        Err(AbortRefused::TooLate(row)) => {
            Ok(Answer::Refused(Refusal::TooLate(act_of(state, pid, row))))
        }
        Err(AbortRefused::Fault(fault)) => tell_fault(fault),
    }
}

/// A server that comes up.
pub(crate) fn tell_up(
    server: ServerName,
    outcome: Result<Option<(ServerName, Pid)>, UpWhy>,
) -> Result<Answer, AllocError>
    ensures { told_up server outcome ≡ result_ok result }
{
    match outcome {
        Ok(None) => Ok(Answer::Up(server)),
        Ok(Some((older, pid))) => Ok(Answer::UpInPlaceOf {
            older,
            pid: pid.0,
            server,
        }),
        Err(UpWhy::Up(UpRefused::OldStart(start))) => {
            Ok(Answer::Refused(Refusal::OldStart(start)))
        }
        Err(UpWhy::Up(UpRefused::Known)) => Ok(Answer::Refused(Refusal::Known)),
        Err(UpWhy::Up(UpRefused::Memory)) => Err(AllocError),
        Err(UpWhy::Fault(fault)) => tell_fault(fault),
    }
}

/// A server that is held to be dead.
pub(crate) fn tell_down(
    server: ServerName,
    outcome: Result<Pid, DownWhy>,
) -> Result<Answer, AllocError>
    ensures { told_down server outcome ≡ result_ok result }
{
    match outcome {
        Ok(pid) => Ok(Answer::Expired { server, pid: pid.0 }),
        Err(DownWhy::Down(DownRefused::Unknown)) => Ok(Answer::Refused(Refusal::Unknown)),
        Err(DownWhy::Down(DownRefused::AlreadyDown)) => Ok(Answer::Refused(Refusal::AlreadyDown)),
        Err(DownWhy::Fault(fault)) => tell_fault(fault),
    }
}

/// A server that was to die: whether it ran.
pub(crate) fn tell_death(server: ServerName, ran: bool) -> Answer
    ensures { told_death server ran ≡ Some result }
{
    if ran {
        Answer::Dead(server)
    } else {
        Answer::Refused(Refusal::NoServer)
    }
}

/// Somebody who is to refuse calls: whether it runs.
pub(crate) fn tell_arming(outcome: Result<bool, Halt>) -> Answer
    ensures { told_arming outcome ≡ Some result }
{
    match outcome {
        Ok(true) => Answer::Armed,
        Ok(false) => Answer::Refused(Refusal::NoServer),
        Err(why) => Answer::Halted(why),
    }
}

/// What travels once more.
pub(crate) fn tell_repeat(outcome: Result<u64, HallFault>) -> Result<Answer, AllocError>
    ensures { told_repeat outcome ≡ result_ok result }
{
    match outcome {
        Ok(count) => Ok(Answer::Resent(count)),
        Err(fault) => tell_fault(fault),
    }
}
