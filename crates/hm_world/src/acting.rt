//! Events, but for those of a task.
ghost use Rattle.std.specs.Prelude.{◌≡◌, ◌≤◌, IsErrOf};
ghost use Rattle.hm_ports.specs.Faults.{Rose};
ghost use Rattle.hm_exec.specs.Fleet.{AnswersDown};
ghost use Rattle.hm_exec.specs.Submitting.{AnswersAbort, AnswersSubmit};
ghost use Rattle.hm_world.specs.Acts.{Arms, Dies, Loses, Repeats, Starts};
ghost use Rattle.hm_world.specs.Carrying.{OnlyExec};
ghost use Rattle.hm_world.specs.Scene.{scene_of};

use crate::world::World;
use hm_data::{Peer, Request};
use hm_exec::{AbortRefused, Accepted, DownWhy, Refused, UpWhy, may_come_up};
use hm_hall::{HallFault, Halt, Recorder};
use hm_names::{Nonce, Pid, ServerName};
use std::alloc::Global;

impl<R: Recorder> World<R> {
    /// Submits a request, as the executor does.
    pub fn submit(
        &mut self,
        alloc: Global,
        nonce: Nonce,
        request: Request,
    ) -> Result<Accepted, Refused>
        ensures answers { AnswersSubmit (scene_of R.kept self.old).exec nonce request result (scene_of R.kept self.new).exec }
        ensures rest { OnlyExec (scene_of R.kept self.old) (scene_of R.kept self.new) }
        ensures fault { IsErrOf result Refused.LogFault → Rose (R.faults self.old.recorder) (R.faults self.new.recorder) }
        ensures later { R.faults self.old.recorder ≤ R.faults self.new.recorder }
        ensures opened { R.opened self.new.recorder ≡ R.opened self.old.recorder }
    {
        self.exec.state().journal();
        self.exec.submit(alloc, nonce, request)
    }

    /// Aborts a root, as the executor does.
    pub fn abort(&mut self, alloc: Global, pid: Pid) -> Result<bool, AbortRefused>
        ensures answers { AnswersAbort (scene_of R.kept self.old).exec pid result (scene_of R.kept self.new).exec }
        ensures rest { OnlyExec (scene_of R.kept self.old) (scene_of R.kept self.new) }
        ensures fault { IsErrOf result (AbortRefused.Fault HallFault.LogFault) → Rose (R.faults self.old.recorder) (R.faults self.new.recorder) }
        ensures later { R.faults self.old.recorder ≤ R.faults self.new.recorder }
        ensures opened { R.opened self.new.recorder ≡ R.opened self.old.recorder }
    {
        self.exec.abort(alloc, pid)
    }

    /// The master takes a live server for dead, whether it runs or not: its crash is recorded.
    pub fn expire(&mut self, alloc: Global, server: &ServerName) -> Result<Pid, DownWhy>
        ensures answers { AnswersDown (scene_of R.kept self.old).exec server.now result (scene_of R.kept self.new).exec }
        ensures rest { OnlyExec (scene_of R.kept self.old) (scene_of R.kept self.new) }
        ensures fault { IsErrOf result (DownWhy.Fault HallFault.LogFault) → Rose (R.faults self.old.recorder) (R.faults self.new.recorder) }
        ensures later { R.faults self.old.recorder ≤ R.faults self.new.recorder }
        ensures opened { R.opened self.new.recorder ≡ R.opened self.old.recorder }
    {
        self.exec.server_down(alloc, server)
    }

    /// Brings a server up, and starts it in place of any other of its host and port. An older one that is live goes down first, and
    /// is told with the number of the root that does what its crash asks for; it may have gone down where the newer one then meets a
    /// fault. A refusal starts no server.
    pub fn start(
        &mut self,
        alloc: Global,
        server: ServerName,
    ) -> Result<Option<(ServerName, Pid)>, UpWhy>
        ensures starts { Starts (scene_of R.kept self.old) server result (scene_of R.kept self.new) }
        ensures fault { IsErrOf result (UpWhy.Fault HallFault.LogFault) → Rose (R.faults self.old.recorder) (R.faults self.new.recorder) }
        ensures later { R.faults self.old.recorder ≤ R.faults self.new.recorder }
        ensures opened { R.opened self.new.recorder ≡ R.opened self.old.recorder }
    {
        if let Some(why) = self.exec.recorder().halted() {
            return Err(UpWhy::Fault(HallFault::Halted(why)));
        }
        if let Err(why) = may_come_up(self.exec.state(), &server) {
            return Err(UpWhy::Up(why));
        }
        let newcomer = match self.fleet.ready(alloc, &server) {
            Ok(newcomer) => newcomer,
            Err(_) => return Err(UpWhy::Fault(HallFault::Memory)),
        };
        let down = self.exec.server_up(alloc, server)?;
        self.fleet.start(newcomer);
        Ok(down)
    }

    /// A server runs no longer, of which the master hears nothing. False where none of this name ran.
    pub fn die(&mut self, server: &ServerName) -> bool
        ensures dies { Dies (scene_of R.kept self.old) server.now result (scene_of R.kept self.new) }
        ensures recorder { self.new.recorder ≡ self.old.recorder }
    {
        if !self.fleet.runs_server(server) {
            return false;
        }
        self.fleet.die(server);
        true
    }

    /// A server is to refuse so many of the next opens, or the storage so many layouts. False where no server of this name runs.
    pub fn arm(&mut self, peer: &Peer, count: u32) -> Result<bool, Halt>
        ensures arms { Arms (scene_of R.kept self.old) peer.now count result (scene_of R.kept self.new) }
        ensures recorder { self.new.recorder ≡ self.old.recorder }
    {
        if let Some(why) = self.exec.recorder().halted() {
            return Err(why);
        }
        if !self.fleet.runs(peer) {
            return Ok(false);
        }
        self.fleet.arm(peer, count);
        Ok(true)
    }

    /// All that travels is lost: how many calls and reports that were.
    pub fn lose(&mut self) -> u64
        ensures loses { Loses (scene_of R.kept self.old) result (scene_of R.kept self.new) }
        ensures recorder { self.new.recorder ≡ self.old.recorder }
    {
        self.fleet.lose()
    }

    /// Each call ever sent and each report ever made travels once more: how many these were.
    pub fn repeat(&mut self) -> Result<u64, HallFault>
        ensures repeats { Repeats (scene_of R.kept self.old) result (scene_of R.kept self.new) }
        ensures recorder { self.new.recorder ≡ self.old.recorder }
    {
        if let Some(why) = self.exec.recorder().halted() {
            return Err(HallFault::Halted(why));
        }
        Ok(self.fleet.repeat()?)
    }
}
