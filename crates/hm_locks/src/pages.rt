//! The pages of a lock book.
ghost use Rattle.std.specs.Prelude.{◌≡◌, ◌+◌, ◌<◌, ◌≤◌, ℕ, ◌++◌, ◌∷◌, [], Some, None, true, false, is_some, length, vec_len, vec_capacity, IfOk, OnOk, MatchOption};
ghost use Rattle.std.specs.Option.{option_copied, option_map};
ghost use Rattle.hm_locks.specs.declared.entry.Want.{Want as WantOf};
ghost use Rattle.hm_locks.specs.declared.key.Key.{Key as KeyOf};
ghost use Rattle.hm_index.specs.Index.{find};
ghost use Rattle.hm_locks.specs.Book.{AreChanged, AreHolders, IsFirst, IsFree, above_child, asks_in, drafted, holding, is_holding, row_of};
ghost use Rattle.hm_locks.specs.Kept.{AreAdded, IsClaimed, entry_of};
ghost use Rattle.hm_locks.specs.Keys.{lock_cmp};

use crate::conflicts::Search;
use crate::desks::Desks;
use crate::draft::{Claim, Draft};
use crate::entry::{Entry, Want, entry_at, set_holds, standing_of, with_front};
use crate::seats::{link, seat, unlink, unseat};
use hm_index::Index;
use hm_lists::{Lists, Steps};
use hm_model::Ask;
use hm_names::{List, Pid};
use std::alloc::{AllocError, Global};
use std::marker::Brand;
use std::sync::ledger::{Blank, Ledger};

// The procedures that were enlisted, with a place for each that stays; their asks, each with the number of a node; for each
// resource two lists of the nodes that hold it, shared and exclusively; and a list of the places of those that hold.
#[derive(Drop)]
pub(crate) struct Pages {
    pub(crate) places: Index<u64, usize>,
    pub(crate) entries: Vec<Option<Entry>>,
    pub(crate) wants: Vec<Want>,
    pub(crate) desks: Desks,
    pub(crate) lists: Lists,
    pub(crate) held: Lists,
}

// How many nodes there are with so many more.
fn nodes_for(count: usize, more: usize) -> Result<u32, AllocError>
    ensures { IfOk result (λ nodes. nodes ≡ count + more) }
{
    let nodes = count.checked_add(more).ok_or(AllocError)?;
    if nodes > u32::MAX as usize {
        return Err(AllocError);
    }
    Ok(nodes as u32)
}

// Adds the want of a claim of the entry at a place, in the room that was made for it.
fn add_want(wants: &mut Vec<Want>, desks: &mut Desks, place: usize, claim: Claim)
    requires wants { vec_len wants.old < vec_capacity wants.old }
    requires desks { 1 ≤ desks.old.spare }
    ensures items { (want : WantOf) × (wants.new.items ≡ wants.old.items ++ want ∷ []) × IsClaimed desks.new.numbers place claim (Some want) }
    ensures kept { (key : KeyOf) (d : ℕ) → find lock_cmp desks.old.numbers key ≡ Some d → find lock_cmp desks.new.numbers key ≡ Some d }
    ensures len { vec_len wants.new ≡ vec_len wants.old + 1 }
    ensures capacity { vec_capacity wants.new ≡ vec_capacity wants.old }
    ensures limit { desks.new.limit ≡ desks.old.limit }
    ensures spare { desks.old.spare ≤ desks.new.spare + 1 }
    ensures room { desks.new.room ≡ desks.old.room }
{
    let Claim { key, exclusive } = claim;
    let desk = desks.number_of(key);
    wants.push_reserved(Want {
        place,
        desk,
        exclusive,
    });
}

// Adds the wants of the claims of the entry at a place, in the room that was made for them.
fn add_wants(wants: &mut Vec<Want>, desks: &mut Desks, place: usize, claims: Vec<Claim>)
    requires wants { vec_len wants.old + length claims.items ≤ vec_capacity wants.old }
    requires desks { length claims.items ≤ desks.old.spare }
    ensures items { AreAdded desks.new.numbers place claims.items wants.old.items wants.new.items }
    ensures kept { (key : KeyOf) (d : ℕ) → find lock_cmp desks.old.numbers key ≡ Some d → find lock_cmp desks.new.numbers key ≡ Some d }
    ensures len { vec_len wants.new ≡ vec_len wants.old + length claims.items }
    ensures capacity { vec_capacity wants.new ≡ vec_capacity wants.old }
    ensures limit { desks.new.limit ≡ desks.old.limit }
    ensures spare { desks.old.spare ≤ desks.new.spare + length claims.items }
    ensures room { desks.new.room ≡ desks.old.room }
{
    for claim in claims {
        add_want(wants, desks, place, claim);
    }
}

impl Pages {
    ghost use Rattle.hm_locks.specs.Entries.{AreKept, HaveLists, IsSameBook, ListHolders, room_of, rows_of, spare_of, wants_spare};

    pub(crate) fn new(alloc: Global) -> Result<Pages, AllocError>
        ensures kept { IfOk result AreKept }
        ensures lists { IfOk result HaveLists }
        ensures held { IfOk result ListHolders }
        ensures rows { IfOk result (λ pages. rows_of pages ≡ []) }
    {
        Ok(Pages {
            places: Index::new(alloc)?,
            entries: Vec::new(alloc),
            wants: Vec::new(alloc),
            desks: Desks::new(alloc)?,
            lists: Lists::new(alloc, 0)?,
            held: Lists::new(alloc, 1)?,
        })
    }

    // The ancestors of a child.
    fn above_child(&self, alloc: Global, parent: Option<Pid>) -> Result<List<u64>, AllocError>
        requires { AreKept self.now }
        ensures { IfOk result (λ above. above ≡ above_child (rows_of self.now) parent) }
    {
        let Some(Pid(parent)) = parent else {
            return Ok(List::of(Vec::new(alloc)));
        };
        match self.entry_of(parent) {
            Some(entry) => with_front(alloc, parent, entry.above.as_slice()),
            None => with_front(alloc, parent, &[]),
        }
    }

    // The entry of a procedure.
    fn entry_of(&self, pid: u64) -> Option<&Entry>
        ensures { option_copied result ≡ entry_of self.now.places.pairs self.now.entries.items pid }
    {
        entry_at(&self.entries, *self.places.get(&pid)?)
    }

    // What will be enlisted of a child.
    pub(crate) fn draft(
        &self,
        alloc: Global,
        parent: Option<Pid>,
        asked: List<Ask>,
    ) -> Result<Draft, AllocError>
        requires { AreKept self.now }
        ensures above { IfOk result (λ draft. draft.above ≡ above_child (rows_of self.now) parent) }
        ensures asks { IfOk result (λ draft. draft.asks ≡ asked) }
    {
        let above = self.above_child(alloc, parent)?;
        Draft::new(alloc, above, asked)
    }

    // Makes room for so many entries more, with so many wants.
    pub(crate) fn reserve(
        &mut self,
        alloc: Global,
        rows: usize,
        count: usize,
    ) -> Result<(), AllocError>
        requires kept { AreKept self.old }
        requires lists { HaveLists self.old }
        requires held { ListHolders self.old }
        ensures kept { AreKept self.new }
        ensures lists { HaveLists self.new }
        ensures held { ListHolders self.new }
        ensures same { IsSameBook self.old self.new }
        ensures room { OnOk result ((rows ≤ spare_of self.new) × (count ≤ wants_spare self.new)) }
        ensures spare { (spare_of self.old ≤ spare_of self.new) × (wants_spare self.old ≤ wants_spare self.new) }
    {
        let seats = nodes_for(self.entries.len(), rows)?;
        let nodes = nodes_for(self.wants.len(), count)?;
        let limit = self.desks.limit_for(count)?;
        self.places.reserve(alloc, rows)?;
        self.entries.reserve(rows)?;
        self.wants.reserve(count)?;
        self.lists.reserve_nodes(alloc, nodes)?;
        self.lists.reserve_lists(alloc, limit + limit)?;
        self.held.reserve_nodes(alloc, seats)?;
        self.desks.reserve(alloc, limit)
    }

    // Enlists a procedure, which holds nothing yet, in the room that was made for it.
    pub(crate) fn enlist(&mut self, pid: u64, draft: Draft)
        requires kept { AreKept self.old }
        requires lists { HaveLists self.old }
        requires held { ListHolders self.old }
        requires new { row_of (rows_of self.old) pid ≡ None }
        requires spare { 1 ≤ spare_of self.old }
        requires wants { length draft.asks ≤ wants_spare self.old }
        ensures kept { AreKept self.new }
        ensures lists { HaveLists self.new }
        ensures held { ListHolders self.new }
        ensures rows { AreChanged (rows_of self.old) pid (Some (drafted pid draft)) (rows_of self.new) }
        ensures spare { spare_of self.old ≤ spare_of self.new + 1 }
        ensures wants { wants_spare self.old ≤ wants_spare self.new + length draft.asks }
        ensures room { room_of self.new ≡ room_of self.old }
    {
        self.desks.are_apart();
        let (above, asked, claims) = draft.into_parts();
        let first = self.wants.len();
        let place = self.entries.len();
        add_wants(&mut self.wants, &mut self.desks, place, claims);
        self.desks.are_apart();
        self.places.set(pid, place);
        self.entries.push_reserved(Some(Entry {
            pid,
            above,
            asked,
            first,
            holds: false,
        }));
    }

    // A procedure takes what it asks for.
    pub(crate) fn take(&mut self, pid: u64)
        requires kept { AreKept self.old }
        requires held { ListHolders self.old }
        requires free { IsFree (rows_of self.old) pid }
        ensures kept { AreKept self.new }
        ensures lists { HaveLists self.old → HaveLists self.new }
        ensures held { ListHolders self.new }
        ensures rows { AreChanged (rows_of self.old) pid (option_map (holding true) (row_of (rows_of self.old) pid)) (rows_of self.new) }
        ensures spare { (spare_of self.new ≡ spare_of self.old) × (wants_spare self.new ≡ wants_spare self.old) }
        ensures room { room_of self.new ≡ room_of self.old }
    {
        let Some(at) = standing_of(&self.places, &self.entries, pid) else {
            return;
        };
        if at.holds {
            return;
        }
        seat(&mut self.lists, &self.wants, at.first, at.count);
        set_holds(&mut self.entries, at.place, true);
        link::<Brand>(&mut self.held, 0, at.place as u32, Blank::new(1));
    }

    // A procedure gives back what it holds.
    pub(crate) fn give_up(&mut self, pid: u64)
        requires kept { AreKept self.old }
        requires held { ListHolders self.old }
        ensures kept { AreKept self.new }
        ensures lists { HaveLists self.old → HaveLists self.new }
        ensures held { ListHolders self.new }
        ensures rows { AreChanged (rows_of self.old) pid (option_map (holding false) (row_of (rows_of self.old) pid)) (rows_of self.new) }
        ensures spare { (spare_of self.new ≡ spare_of self.old) × (wants_spare self.new ≡ wants_spare self.old) }
        ensures room { room_of self.new ≡ room_of self.old }
    {
        let Some(at) = standing_of(&self.places, &self.entries, pid) else {
            return;
        };
        if !at.holds {
            return;
        }
        unseat(&mut self.lists, at.first, at.count);
        set_holds(&mut self.entries, at.place, false);
        unlink::<Brand>(&mut self.held, at.place as u32, Blank::new(1));
    }

    // A procedure that holds nothing is enlisted no longer.
    pub(crate) fn remove(&mut self, pid: u64)
        requires kept { AreKept self.old }
        requires held { ListHolders self.old }
        requires free { is_holding (row_of (rows_of self.old) pid) ≡ false }
        ensures kept { AreKept self.new }
        ensures lists { HaveLists self.old → HaveLists self.new }
        ensures held { ListHolders self.new }
        ensures rows { AreChanged (rows_of self.old) pid None (rows_of self.new) }
        ensures spare { (spare_of self.new ≡ spare_of self.old) × (wants_spare self.new ≡ wants_spare self.old) }
        ensures room { room_of self.new ≡ room_of self.old }
    {
        if let Some(at) = standing_of(&self.places, &self.entries, pid) {
            self.entries[at.place] = None;
        }
    }

    // Whether a procedure is enlisted.
    pub(crate) fn lists(&self, pid: u64) -> bool
        requires { AreKept self.now }
        ensures { result ≡ is_some (row_of (rows_of self.now) pid) }
    {
        self.entry_of(pid).is_some()
    }

    // Whether a procedure holds what it asks for.
    pub(crate) fn holds(&self, pid: u64) -> bool
        requires { AreKept self.now }
        ensures { result ≡ is_holding (row_of (rows_of self.now) pid) }
    {
        match self.entry_of(pid) {
            Some(entry) => entry.holds,
            None => false,
        }
    }

    // The procedures that hold what they ask for.
    pub(crate) fn holders(&self, alloc: Global) -> Result<Vec<Pid>, AllocError>
        requires kept { AreKept self.now }
        requires held { ListHolders self.now }
        ensures { IfOk result (λ pids. AreHolders (rows_of self.now) pids.items) }
    {
        let _list = self.held.list_of(0);
        let mut pids = Vec::new(alloc);
        for place in self.held.iter(0) {
            if let Some(entry) = entry_at(&self.entries, place as usize) {
                pids.push(Pid(entry.pid))?;
            }
        }
        Ok(pids)
    }

    // The lowest procedure that holds what clashes with what this one asks for.
    pub(crate) fn first_conflict<L: Ledger>(&self, pid: u64, steps: &mut Steps<L>) -> Option<u64>
        requires { AreKept self.now }
        ensures first { MatchOption result (IsFree (rows_of self.now) pid) (λ h. IsFirst (rows_of self.now) pid h) }
        ensures steps { steps.new ≡ steps.old + length (asks_in (row_of (rows_of self.now) pid)) }
    {
        self.desks.are_apart();
        let own = self.entry_of(pid)?;
        let search = Search {
            own,
            entries: &self.entries,
            wants: &self.wants,
            lists: &self.lists,
        };
        search.lowest(own.asked.as_slice().len(), steps)
    }
}
