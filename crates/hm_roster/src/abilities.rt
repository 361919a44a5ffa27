//! What a procedure can do, by the records.
ghost use Rattle.std.specs.Prelude.{◌≡◌, ◌↔◌, IsTrue};
ghost use Rattle.hm_model.specs.Rules.{IsLegal};
ghost use Rattle.hm_roster.specs.Roster.{is_crash as crash, is_of_crash as of_crash};
ghost use Rattle.hm_tied.specs.Tied.{Awaits, CanGo};

use hm_data::{Args, Phase};
use hm_judge::may_step;
use hm_names::{Pid, Same};
use hm_records::Records;

/// Whether a procedure may make a step, or have one undone.
pub(crate) fn can_go(records: &Records, pid: Pid) -> bool
    ensures go { IsTrue result ↔ CanGo records.now.past pid.0 }
    ensures legal { IsLegal records.now.past }
{
    let procedures = records.procedures();
    may_step(records, pid) || procedures.undoes(pid)
}

/// Whether a procedure that can't go on waits for the answer to its call.
pub(crate) fn awaits(records: &Records, pid: Pid) -> bool
    ensures { (CanGo records.now.past pid.0 → ⊥) → IsTrue result ↔ Awaits records.now.past pid.0 }
{
    match records.procedures().find(pid) {
        Some(found) => found.phase.same(&Phase::Awaiting),
        None => false,
    }
}

// Whether it is a server's crash.
fn is_crash(args: &Args) -> bool
    ensures { result ≡ crash args.now }
{
    matches!(args, Args::Crash { server: _ })
}

/// Whether a procedure belongs to a server's crash.
pub(crate) fn is_of_crash(records: &Records, pid: Pid) -> bool
    ensures { result ≡ of_crash records.now.past pid.0 }
{
    let procedures = records.procedures();
    let Some(found) = procedures.find(pid) else {
        return false;
    };
    match procedures.find(found.root) {
        Some(root) => is_crash(&root.args),
        None => false,
    }
}
