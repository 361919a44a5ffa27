//! Aborts.
ghost use Rattle.std.specs.Prelude.{◌≡◌, IfErr, IfOk, false};
ghost use Rattle.hm_data.specs.declared.entry.Entry.TheVariants as entry_is;
ghost use Rattle.hm_model.specs.Base.{IsBegun};
ghost use Rattle.hm_model.specs.Rules.{Allowed};
ghost use Rattle.hm_refusals.specs.Aborts.{IsAborted, IsAgainst, is_finished};

use hm_data::Phase;
use hm_hall::HallFault;
use hm_judge::is_before_point;
use hm_names::Pid;
use hm_records::Records;
use thiserror::Error;

/// Why an abort is refused.
#[derive(Clone, Copy, Debug, PartialEq, Eq, Error)]
pub enum AbortRefused {
    /// There is no such procedure, nor a root of the base with the number.
    #[error("unknown")]
    Unknown,
    /// It isn't a root; this one is its root.
    #[error("a child of {0:?}")]
    Child(Pid),
    /// It has failed or ended, and is in this phase.
    #[error("finished: {0:?}")]
    Finished(Phase),
    /// The row that it runs next is after the point.
    #[error("too late at row {0}")]
    TooLate(u8),
    /// Nothing was recorded.
    #[error("{0}")]
    Fault(HallFault),
}

// Whether it is the phase of a root that has failed or ended.
fn has_finished(phase: Phase) -> bool
    ensures { result ≡ is_finished phase }
{
    matches!(
        phase,
        Phase::Failed(_) | Phase::RolledBack(_) | Phase::Success
    )
}

/// Judges an abort by what the journal says: whether there is such a procedure, whether it is a root, whether it goes on, and
/// whether it is before the point; and then whether it was aborted before. A root of the base has ended.
pub fn judge_abort(records: &Records, pid: Pid) -> Result<bool, AbortRefused>
    requires begun { IsBegun records.now.past }
    ensures refused { IfErr result (IsAgainst records.now.past pid.0) }
    ensures may { IfOk result (IsAborted records.now.past pid.0) }
    ensures allowed { IfOk result (λ before. before ≡ false → Allowed records.now.past (entry_is.Abort pid)) }
{
    let _legal = records.procedures();
    let Some(found) = records.shown(pid) else {
        return Err(AbortRefused::Unknown);
    };
    if found.parent.is_some() {
        return Err(AbortRefused::Child(found.root));
    }
    if has_finished(found.phase) {
        return Err(AbortRefused::Finished(found.phase));
    }
    if !is_before_point(records, pid) {
        return Err(AbortRefused::TooLate(found.row));
    }
    Ok(found.aborted)
}
