//! The roots of a base, as they are shown.
ghost use Rattle.std.specs.Prelude.{◌≡◌, ◌+◌, ◌-◌, ◌≤◌, ◌++◌, [], ◌∷◌, length, vec_capacity, vec_len};
ghost use Rattle.std.specs.Option.{option_copied};
ghost use Rattle.hm_model.specs.OldRoots.{old_phase, old_record};
ghost use Rattle.hm_procedures.specs.OldRoots.{AreRising, IsFound};
ghost use Rattle.hm_data.specs.declared.args.Args.{Args as ArgsOf};

use crate::kinds::kind_of;
use hm_data::{Args, Cause, Phase, Record};
use hm_names::{List, Pid};

// How a root of a base ended: well, or rolled back for the cause.
fn phase_of(cause: Option<Cause>) -> Phase
    ensures { result ≡ old_phase cause }
{
    match cause {
        Some(cause) => Phase::RolledBack(cause),
        None => Phase::Success,
    }
}

// A root of a base, as it is shown.
pub(crate) fn record_of(pid: Pid, args: Args, cause: Option<Cause>) -> Record
    ensures { result ≡ old_record pid args cause }
{
    let kind = kind_of(&args);
    Record {
        pid,
        parent: None,
        root: pid,
        kind,
        edition: 0,
        row: 255,
        args,
        tries: 0,
        aborted: false,
        phase: phase_of(cause),
    }
}

// Adds a root of a base, which is made of what it works on.
pub(crate) fn add_old(shown: &mut Vec<Record>, pid: Pid, cause: Option<Cause>, made: List<Args>)
    requires room { length made ≤ vec_capacity shown.old - vec_len shown.old }
    ensures one { (args : ArgsOf) → made ≡ args ∷ [] → shown.new.items ≡ shown.old.items ++ old_record pid args cause ∷ [] }
    ensures count { vec_len shown.new ≤ vec_len shown.old + length made }
    ensures capacity { vec_capacity shown.new ≡ vec_capacity shown.old }
{
    let mut made = made.into_vec();
    if let Some(args) = made.pop() {
        shown.push_reserved(record_of(pid, args, cause));
    }
}

// The root that has a number.
pub(crate) fn find_old(shown: &[Record], pid: Pid) -> Option<&Record>
    requires { AreRising shown.now }
    ensures { IsFound shown.now pid.0 (option_copied result) }
{
    match shown.binary_search_by(|one| one.pid.0.cmp(&pid.0)) {
        Ok(place) => Some(&shown[place]),
        Err(_) => None,
    }
}
