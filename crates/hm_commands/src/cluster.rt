//! A journal on a disk, with what is outside its master.
ghost use Rattle.std.specs.Prelude.{◌≡◌, [], IfErr, IfOk, None};
ghost use Rattle.hm_model.specs.Base.{IsBegun};
ghost use Rattle.hm_model.specs.Image.{counted as counted_in};
ghost use Rattle.hm_model.specs.Journal.{back};
ghost use Rattle.hm_model.specs.Rules.{IsLegal};
ghost use Rattle.hm_world_model.specs.Safe.{IsKept};
ghost use Rattle.hm_world_model.specs.Twice.{Twice};
ghost use Rattle.hm_world.specs.Scene.{past_in, world_of};
ghost use Rattle.hm_commands.specs.Scenes.{claimed_at, halt_at, journal_at, new_scene, whole};
ghost use Rattle.hm_commands.specs.View.{IsLeftBy, scene_in};

use hm_disk::Disk;
use hm_hall::{Halt, Recorder};
use hm_journal::Journal;
use hm_state::State;
use hm_world::World;
use hm_world_model::never_twice;
use std::alloc::Global;
use std::marker::Model;

/// A journal on a disk with its executor, the region servers and the storage as they run, and what travels between them. Contracts
/// see its world.
pub struct Cluster<D: Disk> {
    pub(crate) world: World<Journal<D>>,
}

impl<D: Disk> Model for Cluster<D> {
    ghost use Rattle.hm_journal.specs.View.{JournalView};
    ghost use Rattle.hm_world.specs.Scene.{WorldView};
    ghost use Rattle.hm_commands.specs.View.{IsIdle};

    ghost Value = { WorldView (JournalView D) };

    ghost view = { λ c. c.world };

    ghost invariant = { λ c. IsIdle c.world.claimed };
}

impl<D: Disk> Cluster<D> {
    /// The cluster of a journal that was opened: nobody runs but the storage, with the fences and layouts that the journal's
    /// base and its reports show. Where memory runs out for it, the disk is given back.
    pub fn new(alloc: Global, state: State, journal: Journal<D>) -> Result<Cluster<D>, D>
        requires same { back journal.kept.entries ≡ state.past }
        requires going { journal.kept.halted ≡ None }
        requires tailless { journal.kept.tail ≡ None }
        ensures disk { IfOk result (λ cluster. cluster.recorder.disk ≡ journal.disk) }
        ensures opened { IfOk result (λ cluster. cluster.recorder.opened ≡ journal.opened) }
        ensures at { IfOk result (λ cluster. scene_in cluster ≡ new_scene journal.kept) }
        ensures left { IfErr result (IsLeftBy D.Disk journal.opened (new_scene journal.kept)) }
    {
        state.journal();
        match World::new(alloc, state, journal) {
            Ok(world) => Ok(Cluster { world }),
            Err((journal, _)) => Err(journal.into_disk()),
        }
    }

    /// What holds of each cluster: its journal is legal and has begun, and no region is held by two servers that run and aren't
    /// fenced, nor are two whose ranges overlap. A law that does nothing.
    pub fn keeps(&self)
        ensures kept { IsKept (world_of (scene_in self.now)) }
        ensures once { Twice (past_in (scene_in self.now)) (scene_in self.now).outside → ⊥ }
        ensures legal { IsLegal (back (whole (scene_in self.now))) }
        ensures begun { IsBegun (back (journal_at (scene_in self.now))) }
        ensures whole { IsBegun (back (whole (scene_in self.now))) }
        ensures idle { claimed_at (scene_in self.now) ≡ [] }
    {
        never_twice();
        self.world.keeps();
        self.world.state().journal();
    }

    /// How many entries were recorded: those that the base stands for, and each entry behind it.
    pub fn counted(&self) -> u64
        ensures count { result ≡ counted_in (back (journal_at (scene_in self.now))) }
    {
        self.world.state().counted()
    }

    /// What halted it.
    pub fn halted(&self) -> Option<Halt>
        ensures halted { result ≡ halt_at (scene_in self.now) }
    {
        self.world.recorder().halted()
    }

    /// Gives the disk back.
    pub fn into_disk(self) -> D
        ensures disk { result ≡ self.recorder.disk }
        ensures left { IsLeftBy D.Disk self.recorder.opened (scene_in self) result }
    {
        self.keeps();
        let Cluster { world } = self;
        world.into_recorder().into_disk()
    }
}
