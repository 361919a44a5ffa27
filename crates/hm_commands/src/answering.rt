//! Answers a command.
ghost use Rattle.std.specs.Prelude.{◌≡◌, All, IfErr, IfOk, None, Some, map};
ghost use Rattle.std.specs.Result.{result_ok};
ghost use Rattle.hm_model.specs.Journal.{back};
ghost use Rattle.hm_sheet.specs.Registry.{IsRegistry, sheets_of};
ghost use Rattle.hm_world.specs.Scene.{GoesOn, Scene as SceneValue};
ghost use Rattle.hm_commands.specs.Commands.{Aborts, Answers, Comes, ComesOther, IsUnanswered, asked};
ghost use Rattle.hm_commands.specs.Submissions.{Submits};
ghost use Rattle.hm_commands.specs.Hands.{Ran, Serve, hands_use};
ghost use Rattle.hm_commands.specs.Offered.{IsOffered};
ghost use Rattle.hm_commands.specs.Scenes.{journal_at};
ghost use Rattle.hm_commands.specs.View.{IsLeftBy, scene_in};

use crate::answer::Answer;
use crate::cluster::Cluster;
use crate::requests::into_request;
use crate::telling::{tell_abort, tell_submit};
use hm_data::{Peer, Request};
use hm_disk::Disk;
use hm_names::{Nonce, Pid};
use hm_script::Command;
use hm_sheet::{Handler, Registry};
use std::alloc::{AllocError, Global};

impl<D: Disk> Cluster<D> {
    // Submits a request.
    pub(crate) fn submit(
        &mut self,
        alloc: Global,
        nonce: Nonce,
        request: Request,
    ) -> Result<Answer, AllocError>
        ensures comes { Submits nonce request (scene_in self.old) (result_ok result) (scene_in self.new) }
        ensures opened { self.new.recorder.opened ≡ self.old.recorder.opened }
    {
        let outcome = self.world.submit(alloc, nonce, request);
        tell_submit(self.halted(), outcome)
    }

    // Aborts a root.
    fn abort(&mut self, alloc: Global, pid: Pid) -> Result<Answer, AllocError>
        ensures comes { Aborts pid (scene_in self.old) (result_ok result) (scene_in self.new) }
        ensures opened { self.new.recorder.opened ≡ self.old.recorder.opened }
    {
        let outcome = self.world.abort(alloc, pid);
        tell_abort(self.world.state(), pid, outcome)
    }

    // Answers a command that submits nothing, where nothing halts the run.
    fn answer_other(
        &mut self,
        alloc: Global,
        hands: &mut Vec<Registry>,
        command: Command,
    ) -> Result<Answer, AllocError>
        requires going { GoesOn (scene_in self.old) }
        requires hands { Serve (map (sheets_of ⟦<dyn Handler as Handler>⟧) hands.old.items) (journal_at (scene_in self.old)) }
        requires each { All (IsRegistry ⟦<dyn Handler as Handler>⟧) hands.old.items }
        requires offered { IsOffered command }
        requires other { asked command ≡ None }
        ensures comes { ComesOther command (scene_in self.old) (result_ok result) (scene_in self.new) }
        ensures opened { self.new.recorder.opened ≡ self.old.recorder.opened }
        ensures ran { Ran (hands_use ⟦<dyn Handler as Handler>⟧ hands.old.items hands.new.items) (journal_at (scene_in self.old)) (journal_at (scene_in self.new)) }
        ensures each { All (IsRegistry ⟦<dyn Handler as Handler>⟧) hands.new.items }
    {
        match command {
            Command::Abort { pid } => self.abort(alloc, pid),
            Command::Server { server } => self.start(alloc, server),
            Command::Die { server } => Ok(self.die(server)),
            Command::Expire { server } => self.expire(alloc, server),
            Command::Refuse { server, count } => Ok(self.arm(&Peer::Server(server), count)),
            Command::RefuseStorage { count } => Ok(self.arm(&Peer::Storage, count)),
            Command::Step { count } => self.step(alloc, hands, count),
            Command::Settle => self.settle(alloc, hands),
            Command::Lose => Ok(self.lose()),
            Command::Repeat => self.repeat(),
            Command::Balance => self.balance(alloc),
            Command::Procs => self.show_procs(alloc),
            Command::ProcsJson => self.show_json(alloc),
            Command::Regions => self.show_regions(alloc),
            Command::Locks => self.show_locks(alloc),
            Command::Servers => self.show_servers(alloc),
            _ => unreachable!(),
        }
    }

    // Answers a command.
    fn answer_here(
        &mut self,
        alloc: Global,
        hands: &mut Vec<Registry>,
        command: Command,
    ) -> Result<Answer, AllocError>
        requires hands { Serve (map (sheets_of ⟦<dyn Handler as Handler>⟧) hands.old.items) (journal_at (scene_in self.old)) }
        requires each { All (IsRegistry ⟦<dyn Handler as Handler>⟧) hands.old.items }
        requires offered { IsOffered command }
        ensures comes { Comes command (scene_in self.old) (result_ok result) (scene_in self.new) }
        ensures opened { self.new.recorder.opened ≡ self.old.recorder.opened }
        ensures ran { Ran (hands_use ⟦<dyn Handler as Handler>⟧ hands.old.items hands.new.items) (journal_at (scene_in self.old)) (journal_at (scene_in self.new)) }
        ensures each { All (IsRegistry ⟦<dyn Handler as Handler>⟧) hands.new.items }
    {
        if let Some(why) = self.halted() {
            drop(command);
            return Ok(Answer::Halted(why));
        }
        match into_request(command) {
            Ok((nonce, request)) => self.submit(alloc, nonce, request),
            Err(command) => self.answer_other(alloc, hands, command),
        }
    }

    /// Answers a command, and gives the cluster that is left. Where memory runs out for it the disk is given back: the journal is
    /// as before, but for what the command had recorded by then: the tasks of a `step` or `settle`, the moves of a `balance`, or the
    /// crash of a server before a newer one of its address.
    pub fn answer(
        self,
        alloc: Global,
        hands: &mut Vec<Registry>,
        command: Command,
    ) -> Result<(Cluster<D>, Answer), (D, AllocError)>
        requires hands { Serve (map (sheets_of ⟦<dyn Handler as Handler>⟧) hands.old.items) (journal_at (scene_in self)) }
        requires each { All (IsRegistry ⟦<dyn Handler as Handler>⟧) hands.old.items }
        requires offered { IsOffered command }
        ensures answers { IfOk result (λ r. Answers command (scene_in self) r.1 (scene_in r.0)) }
        ensures opened { IfOk result (λ r. r.0.recorder.opened ≡ self.recorder.opened) }
        ensures ran { IfOk result (λ r. Ran (hands_use ⟦<dyn Handler as Handler>⟧ hands.old.items hands.new.items) (journal_at (scene_in self)) (journal_at (scene_in r.0))) }
        ensures each { All (IsRegistry ⟦<dyn Handler as Handler>⟧) hands.new.items }
        ensures early { IfErr result (λ e. (new : SceneValue) × IsUnanswered command (scene_in self) new × IsLeftBy D.Disk self.recorder.opened new e.0
            × Ran (hands_use ⟦<dyn Handler as Handler>⟧ hands.old.items hands.new.items) (journal_at (scene_in self)) (journal_at new)) }
    {
        let mut cluster = self;
        match cluster.answer_here(alloc, hands, command) {
            Ok(answer) => Ok((cluster, answer)),
            Err(fault) => Err((cluster.into_disk(), fault)),
        }
    }
}
