//! Calls that are due.
ghost use Rattle.std.specs.Prelude.{◌≡◌, ◌+◌, IfNone, IfOk, IfSome, IsSome, Some, true, false};
ghost use Rattle.hm_model.specs.Procedures.{offset};
ghost use Rattle.hm_model.specs.Reports.{call_of as recorded, peer_in};
ghost use Rattle.hm_fleet.specs.Fleet.{outside_of};
ghost use Rattle.hm_world.specs.Due.{NoneIsBelow, IsDueAt, NoneDue};
ghost use Rattle.hm_world.specs.Sound.{HaveDue};
ghost use Rattle.hm_world_model.specs.Outside.{runs};

use crate::numbers::Numbers;
use hm_data::{Args, Call};
use hm_fleet::Fleet;
use hm_names::Pid;
use hm_state::State;
use std::alloc::{AllocError, Global};

// Whether the one runs whom a procedure with these arguments calls.
fn peer_runs(fleet: &Fleet, args: &Args) -> bool
    ensures { result ≡ runs (outside_of fleet.now) (peer_in args.now) }
{
    match args {
        Args::AssignCall { region: _, server } => fleet.runs_server(server),
        Args::CloseCall { region: _, server } => fleet.runs_server(server),
        _ => true,
    }
}

// Whether the call of a procedure is due.
pub(crate) fn is_due(state: &State, fleet: &Fleet, pid: Pid) -> bool
    ensures due { result ≡ true → IsDueAt state.now.past (outside_of fleet.now) pid.0 }
    ensures not_due { result ≡ false → IsDueAt state.now.past (outside_of fleet.now) pid.0 → ⊥ }
{
    state.journal();
    let procedures = state.procedures();
    let Some(record) = procedures.find(pid) else {
        return false;
    };
    if !procedures.has_called(pid) {
        return false;
    }
    if state.is_settled(pid) {
        return false;
    }
    peer_runs(fleet, &record.args)
}

// The number of the first procedure that an entry made, behind the last of a base.
pub(crate) fn first_pid(state: &State) -> u64
    ensures { result ≡ offset state.now.past + 1 }
{
    let procedures = state.procedures();
    let _last = procedures.last_pid();
    procedures.offset() + 1
}

// The call of a procedure that called.
pub(crate) fn call_of(state: &State, alloc: Global, pid: Pid) -> Result<Call, AllocError>
    requires { IsSome (recorded state.now.past pid.0) }
    ensures recorded { IfOk result (λ call. recorded state.now.past pid.0 ≡ Some call) }
    ensures id { IfOk result (λ call. call.id ≡ pid) }
{
    let Some(call) = state.call(alloc, pid)? else {
        unreachable!()
    };
    Ok(call)
}

// The number of the first call that is due. Lower ones, whose calls aren't due any more, are forgotten.
pub(crate) fn first_due(due: &mut Numbers, state: &State, fleet: &Fleet) -> Option<Pid>
    requires { HaveDue state.now.past (outside_of fleet.now) due.old.items }
    ensures have { HaveDue state.now.past (outside_of fleet.now) due.new.items }
    ensures some { IfSome result (λ p. IsDueAt state.now.past (outside_of fleet.now) p.0 × NoneIsBelow state.now.past (outside_of fleet.now) p.0) }
    ensures none { IfNone result (NoneDue state.now.past (outside_of fleet.now)) }
{
    loop {
        let Some(number) = due.first() else {
            return None;
        };
        if is_due(state, fleet, Pid(number)) {
            return Some(Pid(number));
        }
        due.pop();
    }
}
