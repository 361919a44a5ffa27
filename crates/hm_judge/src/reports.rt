//! The rules of a report.
ghost use Rattle.std.specs.Prelude.{◌≡◌, ◌↔◌, IsTrue};
ghost use Rattle.hm_model.specs.Rules.{FitsCall, IsOutstanding};
ghost use Rattle.hm_judge.specs.Reports.{fits_args as args_fit};

use crate::seen::find;
use hm_data::{Args, Told};
use hm_names::Pid;
use hm_records::Records;

/// Whether the call is recorded, has no report, and its procedure hasn't ended.
pub(crate) fn is_outstanding(records: &Records, call: Pid) -> bool
    ensures { IsTrue result ↔ IsOutstanding records.now.past call.0 }
{
    let procedures = records.procedures();
    procedures.has_called(call) && procedures.report(call).is_none() && !procedures.has_ended(call)
}

// Whether an answer fits the call that a procedure is for, if it is for one.
fn fits_args(args: &Args, told: Told) -> bool
    ensures { result ≡ args_fit args.now told }
{
    match args {
        Args::AssignCall {
            region: _,
            server: _,
        } => matches!(told, Told::Opened | Told::FailedOpen),
        Args::CloseCall {
            region: _,
            server: _,
        } => matches!(told, Told::Closed),
        Args::FenceCall { server: _ } => matches!(told, Told::Fenced),
        Args::LayoutCall { root: _ } => matches!(told, Told::LaidOut | Told::Refused),
        Args::SweepLayout { root: _ } => matches!(told, Told::Swept),
        _ => true,
    }
}

/// Whether an answer fits the call, if it is recorded.
pub fn fits_call(records: &Records, call: Pid, told: Told) -> bool
    ensures { IsTrue result ↔ FitsCall records.now.past call.0 told }
{
    if !records.procedures().has_called(call) {
        return true;
    }
    match find(records, call) {
        Some(found) => fits_args(&found.args, told),
        None => true,
    }
}
