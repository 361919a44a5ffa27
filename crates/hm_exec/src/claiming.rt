//! Claims.
ghost use Rattle.std.specs.Prelude.{◌≡◌, ◌⊎◌, IfOk, OnOk};
ghost use Rattle.hm_exec.specs.Claiming.{AnswersClaim, IsHandedOut, PutsBack};
ghost use Rattle.hm_exec.specs.Looks.{LooksToClaim};
ghost use Rattle.hm_exec.specs.Moment.{past_of};
ghost use Rattle.hm_exec.specs.View.{moment_of};
ghost use Rattle.hm_model.specs.Locks.{IsIn};
ghost use Rattle.hm_model.specs.Rest.{MayStepPicked, MayUndo};
ghost use Rattle.hm_roster.specs.Desk.{HasClaimRoom};
ghost use Rattle.hm_roster.specs.Roster.{IsGiven, claims_on};

use crate::exec::Exec;
use hm_hall::{HallFault, Recorder, Taken};
use hm_judge::candidate;
use hm_judge::laws::candidates_fit;
use hm_lists::Steps;
use hm_names::Pid;
use hm_roster::Desk;
use hm_single::picks_are_there;
use hm_state::State;
use std::alloc::{AllocError, Global};
use std::sync::ledger::Ledger;

// What is handed out for a procedure that can go on.
fn hand_out(state: &State, alloc: Global, pid: Pid) -> Result<Taken, AllocError>
    requires { MayStepPicked state.now.past pid.0 ⊎ MayUndo state.now.past pid.0 }
    ensures pid { IfOk result (λ taken. taken.pid ≡ pid) }
    ensures handed { IfOk result (IsHandedOut state.now.past) }
{
    picks_are_there();
    candidates_fit();
    let _legal = state.journal();
    let was = state.step_in(alloc, pid, candidate(state.records(), pid))?;
    Ok(Taken { pid, was })
}

// Makes room for a claim of a procedure that was given and can go on, and what is handed out for it.
fn hand_over(desk: &mut Desk, state: &State, alloc: Global, pid: Pid) -> Result<Taken, AllocError>
    requires given { IsGiven state.now.past desk.old pid.0 }
    requires go { MayStepPicked state.now.past pid.0 ⊎ MayUndo state.now.past pid.0 }
    ensures given { IsGiven state.now.past desk.new pid.0 }
    ensures claimed { claims_on desk.new ≡ claims_on desk.old }
    ensures sched { desk.new.sched ≡ desk.old.sched }
    ensures room { OnOk result (HasClaimRoom desk.new) }
    ensures pid { IfOk result (λ taken. taken.pid ≡ pid) }
    ensures handed { IfOk result (IsHandedOut state.now.past) }
{
    desk.reserve_claim(alloc)?;
    hand_out(state, alloc, pid)
}

impl<R: Recorder> Exec<R> {
    /// Claims the first procedure that is available, servers' before others, and hands out what the next call of its handler
    /// sees. None exactly where none is; memory runs out only where one is. It looks at those in front of the one that it claims, and
    /// at each once.
    pub fn claim<L: Ledger>(
        &mut self,
        alloc: Global,
        steps: &mut Steps<L>,
    ) -> Result<Option<Taken>, HallFault>
        ensures answers { AnswersClaim (moment_of R.kept self.old) result (moment_of R.kept self.new) }
        ensures recorder { self.new.recorder ≡ self.old.recorder }
        ensures steps { LooksToClaim (past_of (moment_of R.kept self.old)) self.old.rows self.old.lists result self.new.lists steps.old steps.new }
    {
        if let Some(why) = self.recorder.halted() {
            return Err(HallFault::Halted(why));
        }
        let Some(pid) = self.desk.next(self.state.records(), steps) else {
            return Ok(None);
        };
        match hand_over(&mut self.desk, &self.state, alloc, pid) {
            Ok(taken) => {
                self.desk.claim(self.state.records(), pid);
                Ok(Some(taken))
            }
            Err(_) => {
                self.desk.let_be(self.state.records(), pid);
                Err(HallFault::Memory)
            }
        }
    }

    /// A claim is given up. Nothing is recorded, and it takes no memory.
    pub fn put_back(&mut self, taken: Taken)
        requires { IsIn taken.pid.0 self.old.claimed }
        ensures back { PutsBack (moment_of R.kept self.old) taken (moment_of R.kept self.new) }
        ensures recorder { self.new.recorder ≡ self.old.recorder }
        ensures room { self.new.room ≡ self.old.room }
    {
        let Taken { pid, was } = taken;
        drop(was);
        self.desk.put_back(self.state.records(), pid);
    }
}
