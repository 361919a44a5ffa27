//! Calls and reports on their way.
ghost use Rattle.std.specs.Prelude.{◌≡◌, ◌≢◌, ◌≤◌, [], IfNone, IfOk, IfSome, IsErrOf, OnErr, Ok, Err, true};
ghost use Rattle.hm_ports.specs.Faults.{Rose};
ghost use Rattle.hm_world.specs.Carrying.{Carries, IsNearer};
ghost use Rattle.hm_world.specs.Scene.{GoesOn, IsFirstNumber, NoneIsDue, scene_of};

use crate::due::{call_of, first_due};
use crate::world::World;
use hm_hall::{HallFault, Recorder};
use hm_names::Pid;
use std::alloc::{AllocError, Global};

impl<R: Recorder> World<R> {
    // The report that waits longest is heard.
    fn hear(&mut self, alloc: Global) -> Result<bool, HallFault>
        requires waits { (scene_of R.kept self.old).waiting ≢ [] }
        ensures carries { Carries (scene_of R.kept self.old) result (scene_of R.kept self.new) }
        ensures fault { IsErrOf result HallFault.LogFault → Rose (R.faults self.old.recorder) (R.faults self.new.recorder) }
        ensures later { R.faults self.old.recorder ≤ R.faults self.new.recorder }
        ensures opened { R.opened self.new.recorder ≡ R.opened self.old.recorder }
    {
        let Some(report) = self.fleet.oldest() else {
            unreachable!()
        };
        match self.exec.hear(alloc, report) {
            Ok(_) => {
                self.fleet.hear();
                Ok(true)
            }
            Err(fault) => Err(fault),
        }
    }

    // The oldest call on the wire is delivered.
    fn deliver(&mut self, alloc: Global) -> Result<bool, HallFault>
        requires going { GoesOn (scene_of R.kept self.old) }
        requires none { (scene_of R.kept self.old).waiting ≡ [] }
        requires some { (scene_of R.kept self.old).wire ≢ [] }
        ensures carries { Carries (scene_of R.kept self.old) result (scene_of R.kept self.new) }
        ensures recorder { self.new.recorder ≡ self.old.recorder }
    {
        Ok(self.fleet.deliver(alloc)?)
    }

    // The number of the first call that is due. Lower ones, whose calls aren't due any more, are forgotten.
    pub(crate) fn first_due(&mut self) -> Option<Pid>
        ensures same { scene_of R.kept self.new ≡ scene_of R.kept self.old }
        ensures recorder { self.new.recorder ≡ self.old.recorder }
        ensures some { IfSome result (IsFirstNumber (scene_of R.kept self.old)) }
        ensures none { IfNone result (NoneIsDue (scene_of R.kept self.old)) }
    {
        first_due(&mut self.due, self.exec.state(), &self.fleet)
    }

    // The call that is due with the lowest number is sent.
    fn send(&mut self, alloc: Global) -> Result<bool, AllocError>
        requires going { GoesOn (scene_of R.kept self.old) }
        requires still { ((scene_of R.kept self.old).wire ≡ []) × ((scene_of R.kept self.old).waiting ≡ []) }
        ensures carries { IfOk result (λ moved. Carries (scene_of R.kept self.old) (Ok moved) (scene_of R.kept self.new)) }
        ensures err { OnErr result (Carries (scene_of R.kept self.old) (Err HallFault.Memory) (scene_of R.kept self.new)) }
        ensures recorder { self.new.recorder ≡ self.old.recorder }
    {
        let Some(pid) = self.first_due() else {
            return Ok(false);
        };
        let call = call_of(self.exec.state(), alloc, pid)?;
        self.fleet.send(call)?;
        Ok(true)
    }

    /// Does the first of these that applies: the report that waits longest is heard; the oldest call on the wire is delivered; the
    /// call that is due with the lowest number is sent. False where none applies.
    pub fn carry(&mut self, alloc: Global) -> Result<bool, HallFault>
        ensures carries { Carries (scene_of R.kept self.old) result (scene_of R.kept self.new) }
        ensures nearer { result ≡ Ok true → IsNearer (scene_of R.kept self.old) (scene_of R.kept self.new) }
        ensures recorder { (scene_of R.kept self.old).waiting ≡ [] → self.new.recorder ≡ self.old.recorder }
        ensures fault { IsErrOf result HallFault.LogFault → Rose (R.faults self.old.recorder) (R.faults self.new.recorder) }
        ensures later { R.faults self.old.recorder ≤ R.faults self.new.recorder }
        ensures opened { R.opened self.new.recorder ≡ R.opened self.old.recorder }
    {
        self.keeps();
        if self.fleet.waits() > 0 {
            return self.hear(alloc);
        }
        if let Some(why) = self.exec.recorder().halted() {
            return Err(HallFault::Halted(why));
        }
        if self.fleet.on_wire() > 0 {
            return self.deliver(alloc);
        }
        Ok(self.send(alloc)?)
    }
}
