//! A world: the executor of a journal, the servers and the storage, and what travels between them.
ghost use Rattle.std.specs.Prelude.{◌≡◌};
ghost use Rattle.hm_fleet.specs.Fleet.{holds_if};
ghost use Rattle.hm_hall.specs.Recording.{past_in};
ghost use Rattle.hm_model.specs.Base.{IsBegun};
ghost use Rattle.hm_model.specs.Image.{counted};
ghost use Rattle.hm_model.specs.Rules.{IsLegal};
ghost use Rattle.hm_world.specs.Scene.{scene_of, world_of};
ghost use Rattle.hm_world_model.specs.Safe.{IsKept};
ghost use Rattle.hm_world_model.specs.World.{whole};

use crate::numbers::Numbers;
use hm_exec::Exec;
use hm_fleet::Fleet;
use hm_hall::Recorder;
use hm_names::{RegionName, ServerName};
use hm_state::State;
use std::marker::Model;

/// The executor of a journal, the region servers and the storage as they run, and the calls and reports that travel. Contracts see
/// its recorder, who is claimed, what is outside, and what travels.
pub struct World<R: Recorder> {
    pub(crate) exec: Exec<R>,
    pub(crate) fleet: Fleet,
    // Each call that is due has its number here; a number may stay when its call isn't due any more.
    pub(crate) due: Numbers,
}

impl<R: Recorder> Model for World<R> {
    ghost use Rattle.hm_world.specs.Scene.{WorldView};
    ghost use Rattle.hm_world.specs.Sound.{IsSound};

    ghost Value = { WorldView R };

    ghost view = { λ w. record { recorder = w.exec.recorder; claimed = w.exec.claimed; fleet = w.fleet } };

    ghost invariant = { λ w. IsSound (R.kept w.exec.recorder) w.fleet w.due.items };
}

impl<R: Recorder> World<R> {
    /// The state of the journal.
    pub fn state(&self) -> &State
        ensures { past_in (R.kept self.now.recorder) ≡ result.now.past }
    {
        self.exec.state()
    }

    /// What records the entries.
    pub fn recorder(&self) -> &R
        ensures { result.now ≡ self.now.recorder }
    {
        self.exec.recorder()
    }

    /// How many entries were recorded, those that a base stands for too: each of them is durable.
    pub fn durable(&self) -> u64
        ensures { result ≡ counted (past_in (R.kept self.now.recorder)) }
    {
        self.state().counted()
    }

    /// What the laws of worlds want is kept, so that they speak of each world: no region is held by two servers that run and aren't
    /// fenced, nor are two whose ranges overlap, whatever part of the journal a stop leaves. And the journal is legal and has begun, with
    /// the entry whose recording failed. A law that does nothing.
    pub fn keeps(&self)
        ensures kept { IsKept (world_of (scene_of R.kept self.now)) }
        ensures legal { IsLegal (whole (world_of (scene_of R.kept self.now))) }
        ensures begun { IsBegun (whole (world_of (scene_of R.kept self.now))) }
    {
        self.exec.claims_stand();
        self.exec.state().journal();
    }

    /// Whether a server runs and holds a region.
    pub fn holds(&self, server: &ServerName, region: &RegionName) -> bool
        ensures { result ≡ holds_if ((scene_of R.kept self.now).outside.actors server.now) region.now }
    {
        self.fleet.holds(server, region)
    }

    /// Gives the recorder back.
    pub fn into_recorder(self) -> R
        ensures { result ≡ self.recorder }
    {
        let World { exec, fleet, due } = self;
        drop(fleet);
        drop(due);
        exec.into_recorder()
    }
}
