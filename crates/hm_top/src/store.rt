//! A journal on a disk that was opened, before anything is done with it.
ghost use Rattle.std.specs.Prelude.{◌≡◌, ◌≢◌, ◌⊎◌, ◌≤◌, [], List, None, length, IfOk, IfErr, MatchResult};
ghost use Rattle.hm_ports.specs.Faults.{Rose};
ghost use Rattle.hm_disk.specs.Called.{IsCalled};
ghost use Rattle.hm_disk.specs.Disk.{LeavesOnly, LeavesThen};
ghost use Rattle.hm_log.specs.Format.{IsClean, Reads};
ghost use Rattle.hm_log.specs.Opening.{IsInPlace, IsMaking, IsUsed};
ghost use Rattle.hm_data.specs.declared.entry.Entry.{Entry as EntryValue};
ghost use Rattle.hm_hall.specs.Recording.{past_in};
ghost use Rattle.hm_model.specs.Image.{counted as counted_in};
ghost use Rattle.hm_model.specs.Base.{AreSheets};
ghost use Rattle.hm_model.specs.Editions.{editions};
ghost use Rattle.hm_model.specs.Sheets.{sheets_of as in_force};
ghost use Rattle.hm_journal.specs.Stored.{IsJournal, frames_of, opened, IsOnDisk, Spares, SameFrames, IsOpening};
ghost use Rattle.hm_journal.specs.Verdict.{Refuses, IsUnjudged};
ghost use Rattle.hm_commands.specs.Scenes.{new_scene};
ghost use Rattle.hm_commands.specs.View.{IsLeftBy, scene_in};
ghost use Rattle.hm_top.specs.Standing.{fresh};

use hm_commands::Cluster;
use hm_data::Sheet;
use hm_disk::Disk;
use hm_journal::{Journal, JournalWhy, Limits};
use hm_state::State;
use std::alloc::Global;
use std::marker::Model;

/// A journal on a disk that was opened, and the state that it is in. Contracts see the disk, and what was recorded.
#[derive(Drop)]
pub(crate) struct Store<D: Disk> {
    journal: Journal<D>,
    state: State,
}

impl<D: Disk> Model for Store<D> {
    ghost use Rattle.hm_top.specs.View.{IsStore, StoreView};

    ghost Value = { StoreView D };

    ghost view = { λ s. record { disk = s.journal.disk; opened = s.journal.opened; kept = s.journal.kept } };

    ghost invariant = { λ s. IsStore s.state.past s.journal.kept };
}

// Gives back the disk of a journal with which nothing was done.
fn release<D: Disk>(state: State, journal: Journal<D>) -> D
    requires same { past_in journal.kept ≡ state.past }
    requires going { journal.kept.halted ≡ None }
    requires tailless { journal.kept.tail ≡ None }
    ensures { IsLeftBy D.Disk journal.opened (new_scene journal.kept) result }
{
    state.journal();
    drop(state);
    journal.into_disk()
}

impl<D: Disk> Store<D> {
    /// Opens a disk as a journal of these sheets. An error gives the disk back.
    pub fn open(
        alloc: Global,
        disk: D,
        sheets: &[Sheet],
        limits: Limits,
    ) -> Result<Store<D>, (D, JournalWhy)>
        requires sheets { AreSheets sheets.now }
        requires hard { 65552 ≤ limits.hard }
        ensures journal { IfOk result (λ store. (old : List EntryValue) × IsJournal sheets.now old × (store.kept ≡ fresh limits (opened sheets.now old))
            × (store.opened.count ≡ length old) × (D.tells → IsOnDisk sheets.now (D.seen disk) old
            × LeavesThen D.moment D.left_since disk store.opened.disk (λ c. D.image disk c ⊎ IsMaking (D.seen disk) c) (λ c. Reads c (frames_of old)))) }
        ensures sheets { IfOk result (λ store. in_force (past_in store.kept) ≡ sheets.now) }
        ensures unadopted { IfOk result (λ store. editions (past_in store.kept) ≡ 0) }
        ensures why { D.tells → IfErr result (λ e. Refuses sheets.now (D.seen disk) e.1) }
        ensures accepts { D.tells → (journal : List EntryValue) → IsOnDisk sheets.now (D.seen disk) journal → IfErr result (λ e. IsUnjudged e.1) }
        ensures fault { IfErr result (λ e. e.1 ≡ JournalWhy.Fault → Rose (D.faults disk) (D.faults e.0)) }
        ensures same { D.tells → IfErr result (λ e. e.1 ≢ JournalWhy.Fault → SameFrames (D.seen disk) (D.seen e.0) (D.image e.0)) }
        ensures spared { D.tells → IfErr result (λ e. Spares sheets.now (D.seen disk) (D.image disk) (D.seen e.0) (D.image e.0)) }
        ensures any_moment { D.tells → IfErr result (λ e. LeavesOnly D.moment D.left_since disk e.0 (IsOpening sheets.now (D.seen disk) (D.image disk))) }
        ensures used { MatchResult result (λ store. IsUsed D.Disk disk store.opened.disk) (λ e. IsUsed D.Disk disk e.0) }
        ensures few { D.tells → IsInPlace (D.seen disk) → MatchResult result (λ store. IsCalled D.Disk 1 disk store.opened.disk) (λ e. IsCalled D.Disk 3 disk e.0) }
        ensures clean { D.tells → IsClean (D.seen disk) → IfOk result (λ store. IsCalled D.Disk 0 disk store.opened.disk) }
    {
        let (journal, state) = Journal::open(alloc, disk, sheets, limits)?;
        Ok(Store { journal, state })
    }

    /// A cluster for it, in which nobody runs and nothing is under way. Where memory runs out for that, the disk is given back.
    pub(crate) fn into_cluster(self, alloc: Global) -> Result<Cluster<D>, D>
        ensures opened { IfOk result (λ cluster. cluster.recorder.opened ≡ self.opened) }
        ensures at { IfOk result (λ cluster. scene_in cluster ≡ new_scene self.kept) }
        ensures left { IfErr result (IsLeftBy D.Disk self.opened (new_scene self.kept)) }
    {
        let Store { journal, state } = self;
        Cluster::new(alloc, state, journal)
    }

    /// How many entries the journal has, with those that its base stands for.
    pub(crate) fn counted(&self) -> u64
        ensures { result ≡ counted_in (past_in self.now.kept) }
    {
        self.state.counted()
    }

    /// Gives the disk back.
    pub(crate) fn into_disk(self) -> D
        ensures { IsLeftBy D.Disk self.opened (new_scene self.kept) result }
    {
        let Store { journal, state } = self;
        release(state, journal)
    }
}
