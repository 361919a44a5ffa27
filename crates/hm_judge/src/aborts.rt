//! The rules of an abort.
ghost use Rattle.std.specs.Prelude.{◌≡◌, ◌↔◌, IsTrue};
ghost use Rattle.hm_model.specs.Rules.{CanAbort, IsBeforePoint};
ghost use Rattle.hm_judge.specs.Aborts.{is_failed};

use crate::seen::{find, is_root, next_row};
use hm_data::Phase;
use hm_names::Pid;
use hm_records::Records;

// Whether the phase is that of a root that has failed.
fn has_failed(phase: Phase) -> bool
    ensures { result ≡ is_failed phase }
{
    matches!(phase, Phase::Failed(_) | Phase::RolledBack(_))
}

/// Whether it is an unfinished root that hasn't failed and isn't aborted.
pub(crate) fn can_abort(records: &Records, pid: Pid) -> bool
    ensures { IsTrue result ↔ CanAbort records.now.past pid.0 }
{
    let Some(found) = find(records, pid) else {
        return false;
    };
    if !is_root(records, pid) || found.aborted || records.procedures().has_ended(pid) {
        return false;
    }
    !has_failed(found.phase)
}

/// Whether the row that it runs next isn't after the point.
pub fn is_before_point(records: &Records, pid: Pid) -> bool
    ensures { IsTrue result ↔ IsBeforePoint records.now.past pid.0 }
{
    let Some(found) = find(records, pid) else {
        return false;
    };
    match next_row(records, found) {
        Some(row) => !row.after,
        None => false,
    }
}
