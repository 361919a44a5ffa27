//! Commands about servers, and about what travels.
ghost use Rattle.std.specs.Prelude.{◌≡◌, Some};
ghost use Rattle.std.specs.Result.{result_ok};
ghost use Rattle.hm_exec.specs.Fleet.{CanUp};
ghost use Rattle.hm_world.specs.Scene.{GoesOn, past_in};
ghost use Rattle.hm_commands.specs.Commands.{ComesUp, Expires, Kills, LosesAll, Refuses, RepeatsAll};
ghost use Rattle.hm_commands.specs.View.{scene_in};

use crate::answer::Answer;
use crate::cluster::Cluster;
use crate::telling::{tell_arming, tell_death, tell_down, tell_repeat, tell_up};
use hm_data::Peer;
use hm_disk::Disk;
use hm_exec::{UpWhy, may_come_up};
use hm_names::{Copied, ServerName};
use std::alloc::{AllocError, Global};

impl<D: Disk> Cluster<D> {
    // Brings a server up that may come up.
    fn start_new(&mut self, alloc: Global, server: ServerName) -> Result<Answer, AllocError>
        requires going { GoesOn (scene_in self.old) }
        requires can { CanUp (past_in (scene_in self.old)) server }
        ensures comes { ComesUp server (scene_in self.old) (result_ok result) (scene_in self.new) }
        ensures opened { self.new.recorder.opened ≡ self.old.recorder.opened }
    {
        match server.copy(alloc) {
            Ok(name) => {
                let outcome = self.world.start(alloc, server);
                tell_up(name, outcome)
            }
            Err(fault) => Err(fault),
        }
    }

    // Brings a server up.
    pub(crate) fn start(&mut self, alloc: Global, server: ServerName) -> Result<Answer, AllocError>
        requires going { GoesOn (scene_in self.old) }
        ensures comes { ComesUp server (scene_in self.old) (result_ok result) (scene_in self.new) }
        ensures opened { self.new.recorder.opened ≡ self.old.recorder.opened }
    {
        match may_come_up(self.world.state(), &server) {
            Ok(()) => self.start_new(alloc, server),
            Err(why) => tell_up(server, Err(UpWhy::Up(why))),
        }
    }

    // Has a server die.
    pub(crate) fn die(&mut self, server: ServerName) -> Answer
        ensures comes { Kills server (scene_in self.old) (Some result) (scene_in self.new) }
        ensures opened { self.new.recorder.opened ≡ self.old.recorder.opened }
    {
        let ran = self.world.die(&server);
        tell_death(server, ran)
    }

    /// Holds a server to be dead, whether it runs or not: its crash is recorded. Memory runs out only for one that is live.
    pub fn expire(&mut self, alloc: Global, server: ServerName) -> Result<Answer, AllocError>
        ensures comes { Expires server (scene_in self.old) (result_ok result) (scene_in self.new) }
        ensures opened { self.new.recorder.opened ≡ self.old.recorder.opened }
    {
        let outcome = self.world.expire(alloc, &server);
        tell_down(server, outcome)
    }

    // Has somebody refuse calls.
    pub(crate) fn arm(&mut self, peer: &Peer, count: u32) -> Answer
        ensures comes { Refuses peer.now count (scene_in self.old) (Some result) (scene_in self.new) }
        ensures opened { self.new.recorder.opened ≡ self.old.recorder.opened }
    {
        let outcome = self.world.arm(peer, count);
        tell_arming(outcome)
    }

    // Loses all that travels.
    pub(crate) fn lose(&mut self) -> Answer
        ensures comes { LosesAll (scene_in self.old) (Some result) (scene_in self.new) }
        ensures opened { self.new.recorder.opened ≡ self.old.recorder.opened }
    {
        Answer::Lost(self.world.lose())
    }

    // Has all that ever travelled do so once more.
    pub(crate) fn repeat(&mut self) -> Result<Answer, AllocError>
        ensures comes { RepeatsAll (scene_in self.old) (result_ok result) (scene_in self.new) }
        ensures opened { self.new.recorder.opened ≡ self.old.recorder.opened }
    {
        let outcome = self.world.repeat();
        tell_repeat(outcome)
    }
}
