ghost use Rattle.std.specs.Prelude.{◌≡◌, ◌+◌, ◌≤◌, [], Some, None, true, false, is_some, length, IfOk, IfSome, OnOk, OnErr, MatchOption};
ghost use Rattle.std.specs.Option.{option_map};
ghost use Rattle.hm_locks.specs.Book.{AreChanged, AreHolders, IsEnlisted, IsFirst, IsFree, NoneClash, above_child, asks_in, drafted, holding, is_holding, new_row, row_of};

use crate::draft::Draft;
use crate::pages::Pages;
use hm_lists::Steps;
use hm_model::Ask;
use hm_names::{List, Pid};
use std::alloc::{AllocError, Global};
use std::marker::Model;
use std::sync::ledger::Ledger;

/// Who is enlisted, with what each asks for, and who holds what it asks for. Contracts see the rows, one for each
/// procedure that is enlisted, for how much more there is room, and how much memory there is. No two of those that hold
/// clash, unless one is an ancestor of the other.
#[derive(Drop)]
pub struct LockBook {
    pages: Pages,
}

impl Model for LockBook {
    ghost use Rattle.hm_locks.specs.Book.{Book, NoneClash};
    ghost use Rattle.hm_locks.specs.Entries.{AreKept, HaveLists, ListHolders, room_of, rows_of, spare_of, wants_spare};

    ghost Value = { Book };

    ghost view = { λ s. record { rows = rows_of s.pages; spare = spare_of s.pages; spare_asks = wants_spare s.pages; room = room_of s.pages } };

    ghost invariant = { λ s. AreKept s.pages × HaveLists s.pages × ListHolders s.pages × NoneClash (rows_of s.pages) };
}

impl LockBook {
    /// Nobody is enlisted.
    pub fn new(alloc: Global) -> Result<LockBook, AllocError>
        ensures { IfOk result (λ book. book.rows ≡ []) }
    {
        let pages = Pages::new(alloc)?;
        Ok(LockBook { pages })
    }

    /// Enlists a procedure, which holds nothing yet, and makes all the room that it will need to take and to give back
    /// what it asks for. There are at most 2^32 - 1 procedures that were ever enlisted, as many asks of them all, and
    /// 2^31 - 1 resources: what is more than that answers as memory that is missing.
    pub fn enlist(
        &mut self,
        alloc: Global,
        pid: Pid,
        parent: Option<Pid>,
        asked: List<Ask>,
    ) -> Result<(), AllocError>
        requires new { row_of self.old.rows pid.0 ≡ None }
        requires parent { IfSome parent (λ p. IsEnlisted self.old.rows p.0) }
        ensures ok { OnOk result (AreChanged self.old.rows pid.0 (Some (new_row self.old.rows pid.0 parent asked)) self.new.rows) }
        ensures err { OnErr result (self.new.rows ≡ self.old.rows) }
        ensures spare { OnOk result (self.old.spare ≤ self.new.spare + 1) }
        ensures asks { OnOk result (self.old.spare_asks ≤ self.new.spare_asks + length asked) }
    {
        let draft = self.draft(alloc, parent, asked)?;
        self.reserve(alloc, 1, draft.asks().len() as u64)?;
        self.enlist_draft(pid, draft);
        Ok(())
    }

    /// Makes what will be enlisted of a procedure with this parent and these asks.
    pub fn draft(
        &self,
        alloc: Global,
        parent: Option<Pid>,
        asked: List<Ask>,
    ) -> Result<Draft, AllocError>
        ensures above { IfOk result (λ draft. draft.above ≡ above_child self.now.rows parent) }
        ensures asks { IfOk result (λ draft. draft.asks ≡ asked) }
    {
        self.pages.draft(alloc, parent, asked)
    }

    /// Makes room for so many procedures more, which ask for so much in all. For the limits see `enlist`.
    pub fn reserve(&mut self, alloc: Global, rows: u64, asks: u64) -> Result<(), AllocError>
        ensures rows { self.new.rows ≡ self.old.rows }
        ensures room { OnOk result ((rows ≤ self.new.spare) × (asks ≤ self.new.spare_asks)) }
        ensures kept { (self.old.spare ≤ self.new.spare) × (self.old.spare_asks ≤ self.new.spare_asks) }
    {
        self.pages.reserve(alloc, rows as usize, asks as usize)
    }

    /// Enlists a procedure, which holds nothing yet, in the room that was made for it. It takes no memory.
    pub fn enlist_draft(&mut self, pid: Pid, draft: Draft)
        requires new { row_of self.old.rows pid.0 ≡ None }
        requires room { 1 ≤ self.old.spare }
        requires asks { length draft.asks ≤ self.old.spare_asks }
        ensures rows { AreChanged self.old.rows pid.0 (Some (drafted pid.0 draft)) self.new.rows }
        ensures spare { self.old.spare ≤ self.new.spare + 1 }
        ensures asks { self.old.spare_asks ≤ self.new.spare_asks + length draft.asks }
        ensures room { self.new.room ≡ self.old.room }
    {
        self.pages.enlist(pid.0, draft);
    }

    /// Whether a procedure is enlisted.
    pub fn lists(&self, pid: Pid) -> bool
        ensures { result ≡ is_some (row_of self.now.rows pid.0) }
    {
        self.pages.lists(pid.0)
    }

    /// The lowest procedure, neither ancestor nor descendant, that holds a resource which this one asks for, where one of
    /// the two is exclusive. Each asked resource is one step.
    pub fn first_conflict<L: Ledger>(&self, pid: Pid, steps: &mut Steps<L>) -> Option<Pid>
        requires { IsEnlisted self.now.rows pid.0 }
        ensures first { MatchOption result (IsFree self.now.rows pid.0) (λ h. IsFirst self.now.rows pid.0 h.0) }
        ensures steps { steps.new ≡ steps.old + length (asks_in (row_of self.now.rows pid.0)) }
    {
        self.pages.first_conflict(pid.0, steps).map(Pid)
    }

    /// A procedure takes what it asks for.
    pub fn take(&mut self, pid: Pid)
        requires enlisted { IsEnlisted self.old.rows pid.0 }
        requires free { IsFree self.old.rows pid.0 }
        ensures rows { AreChanged self.old.rows pid.0 (option_map (holding true) (row_of self.old.rows pid.0)) self.new.rows }
        ensures spare { (self.new.spare ≡ self.old.spare) × (self.new.spare_asks ≡ self.old.spare_asks) }
        ensures room { self.new.room ≡ self.old.room }
    {
        self.pages.take(pid.0);
    }

    /// A procedure gives back what it holds, and stays enlisted.
    pub fn give_up(&mut self, pid: Pid)
        requires { IsEnlisted self.old.rows pid.0 }
        ensures rows { AreChanged self.old.rows pid.0 (option_map (holding false) (row_of self.old.rows pid.0)) self.new.rows }
        ensures spare { (self.new.spare ≡ self.old.spare) × (self.new.spare_asks ≡ self.old.spare_asks) }
        ensures room { self.new.room ≡ self.old.room }
    {
        self.pages.give_up(pid.0);
    }

    /// A procedure is enlisted no longer, and holds nothing.
    pub fn release(&mut self, pid: Pid)
        requires { IsEnlisted self.old.rows pid.0 }
        ensures rows { AreChanged self.old.rows pid.0 None self.new.rows }
        ensures spare { (self.new.spare ≡ self.old.spare) × (self.new.spare_asks ≡ self.old.spare_asks) }
        ensures room { self.new.room ≡ self.old.room }
    {
        self.pages.give_up(pid.0);
        self.pages.remove(pid.0);
    }

    /// Whether a procedure holds what it asks for; false of one that isn't enlisted.
    pub fn holds(&self, pid: Pid) -> bool
        ensures holds { result ≡ is_holding (row_of self.now.rows pid.0) }
        ensures none_clash { NoneClash self.now.rows }
    {
        self.pages.holds(pid.0)
    }

    /// The procedures that hold what they ask for, in no order of their own. It looks at no others.
    pub fn holders(&self, alloc: Global) -> Result<Vec<Pid>, AllocError>
        ensures { IfOk result (λ pids. AreHolders self.now.rows pids.items) }
    {
        self.pages.holders(alloc)
    }
}
