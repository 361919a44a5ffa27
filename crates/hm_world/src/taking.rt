//! Tasks: what there is to do next, and what becomes of it.
ghost use Rattle.std.specs.Prelude.{◌≡◌, ◌≤◌, false, true, IfErr, None, Ok, Some};
ghost use Rattle.hm_ports.specs.Faults.{Rose};
ghost use Rattle.hm_exec.specs.Claiming.{AnswersClaim, IsAnswer};
ghost use Rattle.hm_model.specs.Locks.{IsIn};
ghost use Rattle.hm_world.specs.Carrying.{CanCarry};
ghost use Rattle.hm_world.specs.Scene.{GoesOn, past_in, scene_of};
ghost use Rattle.hm_world.specs.Taking.{Gives, IsStill, Returns, Takes};

use crate::world::World;
use hm_data::StepOut;
use hm_hall::{Given, HallFault, Recorder, Taken, Task};
use hm_lists::Steps;
use std::alloc::Global;
use std::sync::ledger::Ledger;

impl<R: Recorder> World<R> {
    // Whether something can be carried.
    fn can_carry(&mut self) -> bool
        requires going { GoesOn (scene_of R.kept self.old) }
        ensures same { scene_of R.kept self.new ≡ scene_of R.kept self.old }
        ensures recorder { self.new.recorder ≡ self.old.recorder }
        ensures can { result ≡ true → CanCarry (scene_of R.kept self.old) }
        ensures still { result ≡ false → IsStill (scene_of R.kept self.old) }
    {
        self.fleet.waits() > 0 || self.fleet.on_wire() > 0 || self.first_due().is_some()
    }

    /// The next task: a procedure that is available is claimed for it; else something can be carried; else somebody is claimed; else
    /// there is nothing to do.
    pub fn take<L: Ledger>(
        &mut self,
        alloc: Global,
        steps: &mut Steps<L>,
    ) -> Result<Task, HallFault>
        ensures takes { Takes (scene_of R.kept self.old) result (scene_of R.kept self.new) }
        ensures recorder { self.new.recorder ≡ self.old.recorder }
    {
        match self.exec.claim(alloc, steps)? {
            Some(taken) => Ok(Task::Run(taken)),
            None => Ok(self.without_claim()),
        }
    }

    // The next task where no procedure is available.
    fn without_claim(&mut self) -> Task
        requires none { AnswersClaim (scene_of R.kept self.old).exec (Ok None) (scene_of R.kept self.old).exec }
        ensures takes { Takes (scene_of R.kept self.old) (Ok result) (scene_of R.kept self.new) }
        ensures recorder { self.new.recorder ≡ self.old.recorder }
    {
        if self.can_carry() {
            return Task::Carry;
        }
        if self.exec.claims() > 0 {
            return Task::Busy;
        }
        Task::Idle
    }

    /// Gives back what the handler answered to what was taken. An error gives that back.
    pub fn give(
        &mut self,
        alloc: Global,
        taken: Taken,
        out: StepOut,
    ) -> Result<Given, (Taken, HallFault)>
        requires claimed { IsIn taken.pid.0 self.old.claimed }
        requires answer { IsAnswer (past_in (scene_of R.kept self.old)) taken.was out }
        ensures gives { Gives (scene_of R.kept self.old) taken out result (scene_of R.kept self.new) }
        ensures fault { IfErr result (λ e. e.1 ≡ HallFault.LogFault → Rose (R.faults self.old.recorder) (R.faults self.new.recorder)) }
        ensures later { R.faults self.old.recorder ≤ R.faults self.new.recorder }
        ensures opened { R.opened self.new.recorder ≡ R.opened self.old.recorder }
    {
        if let Some(why) = self.exec.recorder().halted() {
            return Err((taken, HallFault::Halted(why)));
        }
        let pid = taken.pid;
        let calls = out.call.is_some();
        if self.due.reserve(calls as usize).is_err() {
            return Err((taken, HallFault::Memory));
        }
        let given = self.exec.commit(alloc, taken, out)?;
        self.due.push_if(calls, pid.0);
        Ok(given)
    }

    /// What was taken is put back. Nothing is recorded.
    pub fn put_back(&mut self, taken: Taken)
        requires { IsIn taken.pid.0 self.old.claimed }
        ensures returns { Returns (scene_of R.kept self.old) taken (scene_of R.kept self.new) }
        ensures recorder { self.new.recorder ≡ self.old.recorder }
    {
        self.exec.put_back(taken);
    }
}
