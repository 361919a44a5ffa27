//! What is kept of all procedures, and how entries change it.
ghost use Rattle.std.specs.Prelude.{◌≡◌, ◌+◌, ◌<◌, ◌≤◌, ◌^◌, ◌++◌, [], ◌∷◌, length, map, OnOk, Some, None, slice_get};
ghost use Rattle.hm_names.specs.declared.pid.Pid.{Pid as PidOf};
ghost use Rattle.hm_data.specs.declared.entry.Entry.TheVariants as entry_is;
ghost use Rattle.hm_model.specs.Apart.{tree_of};
ghost use Rattle.hm_model.specs.Counts.{one_if};
ghost use Rattle.hm_model.specs.Rules.{IsLegal};
ghost use Rattle.hm_model.specs.Undo.{is_empty, stack};
ghost use Rattle.hm_model.specs.Editions.{editions};
ghost use Rattle.hm_procedures.specs.Book.{HasElder, HasRoot, IsAbort, IsAdopt, IsBook, IsReport, IsRooting, IsUndo, SameBase, room_of, spare_of};
ghost use Rattle.hm_procedures.specs.Changes.{added, elder_by, elders};
ghost use Rattle.hm_procedures.specs.Kept.{args_made, root_shown};
ghost use Rattle.hm_procedures.specs.declared.kept.Tracked.{Tracked as TrackedOf};

use crate::changes::{note_abort, note_all, note_report};
use crate::journal::Journal;
use crate::kept::{Tracked, first_child};
use crate::old::add_old;
use crate::phases::{edition_of, family, has_ended, show_phases};
use crate::trees::Trees;
use hm_data::{Args, Entry, Part, Record, StepOut};
use hm_names::{List, Pid, ServerName};
use std::alloc::{AllocError, Global};

// One less, where one has ended.
pub(crate) fn less_if(count: u64, over: bool) -> u64
    requires { one_if over ≤ count }
    ensures { result + one_if over ≡ count }
{
    if over { count - 1 } else { count }
}

// Adds a procedure to the others: after the eldest of its siblings, or as the eldest.
fn add_sibling(siblings: &mut Trees, pid: Pid, eldest: Option<Pid>)
    requires room { 1 ≤ siblings.old.spare }
    requires number { pid.0 ≡ siblings.old.from + length siblings.old.roots + 1 }
    requires elder { HasElder siblings.old.from siblings.old.roots eldest }
    ensures from { siblings.new.from ≡ siblings.old.from }
    ensures roots { siblings.new.roots ≡ siblings.old.roots ++ elder_by pid.0 eldest ∷ [] }
    ensures spare { siblings.old.spare ≤ siblings.new.spare + 1 }
    ensures room { siblings.new.room ≡ siblings.old.room }
{
    match eldest {
        Some(eldest) if eldest.0 != pid.0 => siblings.add(eldest),
        _ => siblings.add_root(),
    }
}

// What is kept of each procedure that an entry made, the trees, the children of each parent, led by the eldest, and how many roots
// haven't ended.
#[derive(Drop)]
pub(crate) struct Book {
    // The number before that of the first procedure that an entry made: the last of the base, where there is one.
    pub(crate) offset: u64,
    // How often sheets were adopted.
    pub(crate) editions: u64,
    // The roots of the base, as they are shown.
    pub(crate) old_roots: Vec<Record>,
    pub(crate) kept: Vec<Tracked>,
    pub(crate) trees: Trees,
    pub(crate) siblings: Trees,
    pub(crate) unfinished: u64,
}

impl Book {
    pub(crate) fn new(alloc: Global) -> Book
        ensures { IsBook [] result }
    {
        Book {
            offset: 0,
            editions: 0,
            old_roots: Vec::new(alloc),
            kept: Vec::new(alloc),
            trees: Trees::new(alloc),
            siblings: Trees::new(alloc),
            unfinished: 0,
        }
    }

    // Makes room for so many procedures more.
    pub(crate) fn reserve(&mut self, count: u64) -> Result<(), AllocError>
        ensures kept { self.new.kept.items ≡ self.old.kept.items }
        ensures trees { self.new.trees.roots ≡ self.old.trees.roots }
        ensures siblings { self.new.siblings.roots ≡ self.old.siblings.roots }
        ensures unfinished { self.new.unfinished ≡ self.old.unfinished }
        ensures base { SameBase self.old self.new }
        ensures room { OnOk result (count ≤ spare_of self.new) }
        ensures spare { spare_of self.old ≤ spare_of self.new }
    {
        self.kept.reserve(count as usize)?;
        self.trees.reserve(count as usize)?;
        self.siblings.reserve(count as usize)?;
        self.old_roots.reserve(count as usize)
    }

    // Adds a new procedure, as a root or with its parent and its root, and with the eldest child of its parent, in an edition.
    fn add(&mut self, up: Option<(Pid, Pid)>, eldest: Option<Pid>, edition: u64, args: Args)
        requires room { 1 ≤ spare_of self.old }
        requires count { length self.old.trees.roots ≡ length self.old.kept.items }
        requires siblings { length self.old.siblings.roots ≡ length self.old.kept.items }
        requires trees_from { self.old.trees.from ≡ self.old.offset }
        requires siblings_from { self.old.siblings.from ≡ self.old.offset }
        requires few { self.old.offset ≤ 2 ^ 48 }
        requires root { HasRoot self.old.offset self.old.trees.roots up }
        requires elder { HasElder self.old.offset self.old.siblings.roots eldest }
        ensures kept { self.new.kept.items ≡ self.old.kept.items ++ added (self.old.offset + length self.old.kept.items) up edition (args ∷ []) }
        ensures trees { self.new.trees.roots ≡ self.old.trees.roots ++ map root_shown (added (self.old.offset + length self.old.kept.items) up edition (args ∷ [])) }
        ensures siblings { self.new.siblings.roots ≡ self.old.siblings.roots ++ elders (self.old.offset + length self.old.kept.items) eldest (args ∷ []) }
        ensures unfinished { self.new.unfinished ≡ self.old.unfinished }
        ensures base { SameBase self.old self.new }
        ensures spare { spare_of self.old ≤ spare_of self.new + 1 }
        ensures room { room_of self.new ≡ room_of self.old }
    {
        let pid = Pid(self.offset + self.kept.len() as u64 + 1);
        match up {
            Some((_, root)) => self.trees.add(root),
            None => self.trees.add_root(),
        }
        add_sibling(&mut self.siblings, pid, eldest);
        self.kept
            .push_reserved(Tracked::fresh(pid, up, edition, args));
    }

    // Adds new procedures, as roots or with their parent and their root, and with the eldest child of their parent, in an edition.
    fn add_all(
        &mut self,
        up: Option<(Pid, Pid)>,
        eldest: Option<Pid>,
        edition: u64,
        made: List<Args>,
    )
        requires room { length made ≤ spare_of self.old }
        requires count { length self.old.trees.roots ≡ length self.old.kept.items }
        requires siblings { length self.old.siblings.roots ≡ length self.old.kept.items }
        requires trees_from { self.old.trees.from ≡ self.old.offset }
        requires siblings_from { self.old.siblings.from ≡ self.old.offset }
        requires few { self.old.offset ≤ 2 ^ 48 }
        requires root { HasRoot self.old.offset self.old.trees.roots up }
        requires elder { HasElder self.old.offset self.old.siblings.roots eldest }
        ensures kept { self.new.kept.items ≡ self.old.kept.items ++ added (self.old.offset + length self.old.kept.items) up edition made }
        ensures trees { self.new.trees.roots ≡ self.old.trees.roots ++ map root_shown (added (self.old.offset + length self.old.kept.items) up edition made) }
        ensures siblings { self.new.siblings.roots ≡ self.old.siblings.roots ++ elders (self.old.offset + length self.old.kept.items) eldest made }
        ensures unfinished { self.new.unfinished ≡ self.old.unfinished }
        ensures base { SameBase self.old self.new }
        ensures spare { spare_of self.old ≤ spare_of self.new + length made }
        ensures room { room_of self.new ≡ room_of self.old }
    {
        for args in made.into_vec() {
            self.add(up, eldest, edition, args);
        }
    }

    // Takes in a submission, or that a server went down.
    fn root(&mut self, past: &Journal, entry: &Entry, made: List<Args>)
        requires book { IsBook past.now.entries self.old }
        requires legal { IsLegal (entry.now ∷ past.now.entries) }
        requires roots { IsRooting entry.now }
        requires made { made ≡ args_made past.now.entries entry.now }
        requires room { length made ≤ spare_of self.old }
        ensures book { IsBook (entry.now ∷ past.now.entries) self.new }
        ensures spare { spare_of self.old ≤ spare_of self.new + length made }
        ensures room { room_of self.new ≡ room_of self.old }
    {
        self.add_all(None, None, self.editions, made);
        self.unfinished += 1;
    }

    // Takes in a step.
    fn step(
        &mut self,
        past: &Journal,
        pid: Pid,
        _pick: &Option<ServerName>,
        out: &StepOut,
        made: List<Args>,
        nothing_left: bool,
    )
        requires book { IsBook past.now.entries self.old }
        requires legal { IsLegal (entry_is.Step pid _pick.now out.now ∷ past.now.entries) }
        requires made { made ≡ args_made past.now.entries (entry_is.Step pid _pick.now out.now) }
        requires left { nothing_left ≡ is_empty (stack (entry_is.Step pid _pick.now out.now ∷ past.now.entries) (tree_of past.now.entries (entry_is.Step pid _pick.now out.now))) }
        requires room { length made ≤ spare_of self.old }
        ensures book { IsBook (entry_is.Step pid _pick.now out.now ∷ past.now.entries) self.new }
        ensures spare { spare_of self.old ≤ spare_of self.new + length made }
        ensures room { room_of self.new ≡ room_of self.old }
    {
        let (parent, root) = family(&self.kept, self.offset, pid);
        let edition = edition_of(&self.kept, self.offset, pid);
        let before = self.offset + self.kept.len() as u64;
        let count = made.as_slice().len() as u64;
        note_all(
            &mut self.kept,
            self.offset,
            pid,
            parent,
            root,
            out,
            before,
            count,
        );
        let eldest = first_child(&self.kept, self.offset, pid);
        self.add_all(Some((pid, root)), eldest, edition, made);
        show_phases(
            &mut self.kept,
            self.offset,
            &self.trees,
            pid,
            parent,
            root,
            nothing_left,
        );
        let over = has_ended(&self.kept, self.offset, root);
        self.unfinished = less_if(self.unfinished, over);
    }

    // Takes in that a step was undone.
    fn undo(&mut self, past: &Journal, entry: &Entry, made: List<Args>, nothing_left: bool)
        requires book { IsBook past.now.entries self.old }
        requires legal { IsLegal (entry.now ∷ past.now.entries) }
        requires made { made ≡ args_made past.now.entries entry.now }
        requires left { nothing_left ≡ is_empty (stack (entry.now ∷ past.now.entries) (tree_of past.now.entries entry.now)) }
        requires room { length made ≤ spare_of self.old }
        ensures book { IsUndo entry.now → IsBook (entry.now ∷ past.now.entries) self.new }
        ensures spare { spare_of self.old ≤ spare_of self.new + length made }
        ensures room { room_of self.new ≡ room_of self.old }
    {
        let Entry::Undo {
            pid,
            row: _row,
            out: _out,
        } = entry
        else {
            return;
        };
        let (parent, root) = family(&self.kept, self.offset, *pid);
        self.unfinished += made.as_slice().len() as u64;
        self.add_all(None, None, self.editions, made);
        show_phases(
            &mut self.kept,
            self.offset,
            &self.trees,
            *pid,
            parent,
            root,
            nothing_left,
        );
        let over = has_ended(&self.kept, self.offset, root);
        self.unfinished = less_if(self.unfinished, over);
    }

    // Takes in the report of a call.
    fn report(&mut self, past: &Journal, entry: &Entry)
        requires book { IsBook past.now.entries self.old }
        requires legal { IsLegal (entry.now ∷ past.now.entries) }
        ensures book { IsReport entry.now → IsBook (entry.now ∷ past.now.entries) self.new }
        ensures spare { spare_of self.old ≤ spare_of self.new }
        ensures room { room_of self.new ≡ room_of self.old }
    {
        let _past = past;
        let Entry::Report { call, told } = entry else {
            return;
        };
        note_report(&mut self.kept, self.offset, *call, *told);
    }

    // Takes in an abort.
    fn abort(&mut self, past: &Journal, entry: &Entry)
        requires book { IsBook past.now.entries self.old }
        requires legal { IsLegal (entry.now ∷ past.now.entries) }
        ensures book { IsAbort entry.now → IsBook (entry.now ∷ past.now.entries) self.new }
        ensures spare { spare_of self.old ≤ spare_of self.new }
        ensures room { room_of self.new ≡ room_of self.old }
    {
        let _past = past;
        let Entry::Abort { pid } = entry else {
            return;
        };
        note_abort(&mut self.kept, self.offset, *pid);
    }

    // Takes in that sheets were adopted.
    fn adopt(&mut self, past: &Journal, entry: &Entry)
        requires book { IsBook past.now.entries self.old }
        requires legal { IsLegal (entry.now ∷ past.now.entries) }
        requires adopts { IsAdopt entry.now }
        requires few { editions (entry.now ∷ past.now.entries) < 2 ^ 64 }
        ensures book { IsBook (entry.now ∷ past.now.entries) self.new }
        ensures spare { spare_of self.old ≤ spare_of self.new }
        ensures room { room_of self.new ≡ room_of self.old }
    {
        let _past = past;
        self.editions += 1;
    }

    // Takes in a part of a base.
    fn base(&mut self, past: &Journal, part: &Part, made: List<Args>)
        requires book { IsBook past.now.entries self.old }
        requires legal { IsLegal (entry_is.Base part.now ∷ past.now.entries) }
        requires made { made ≡ args_made past.now.entries (entry_is.Base part.now) }
        requires room { length made ≤ spare_of self.old }
        ensures book { IsBook (entry_is.Base part.now ∷ past.now.entries) self.new }
        ensures spare { spare_of self.old ≤ spare_of self.new + length made }
        ensures room { room_of self.new ≡ room_of self.old }
    {
        let _past = past;
        match part {
            Part::Head {
                entries: _,
                last,
                parts: _,
                sheets: _,
            } => {
                self.offset = last.0;
                self.trees.begin(last.0);
                self.siblings.begin(last.0);
            }
            Part::Root {
                pid,
                nonce: _,
                args: _,
                cause,
            } => add_old(&mut self.old_roots, *pid, *cause, made),
            _ => {}
        }
    }

    // Takes in an entry.
    pub(crate) fn enter(
        &mut self,
        past: &Journal,
        entry: &Entry,
        made: List<Args>,
        nothing_left: bool,
    )
        requires book { IsBook past.now.entries self.old }
        requires legal { IsLegal (entry.now ∷ past.now.entries) }
        requires few { editions (entry.now ∷ past.now.entries) < 2 ^ 64 }
        requires made { made ≡ args_made past.now.entries entry.now }
        requires left { nothing_left ≡ is_empty (stack (entry.now ∷ past.now.entries) (tree_of past.now.entries entry.now)) }
        requires room { length made ≤ spare_of self.old }
        ensures book { IsBook (entry.now ∷ past.now.entries) self.new }
        ensures spare { spare_of self.old ≤ spare_of self.new + length made }
        ensures room { room_of self.new ≡ room_of self.old }
    {
        match entry {
            Entry::Submit {
                nonce: _,
                request: _,
            }
            | Entry::Down { server: _ } => self.root(past, entry, made),
            Entry::Step { pid, pick, out } => self.step(past, *pid, pick, out, made, nothing_left),
            Entry::Undo {
                pid: _,
                row: _,
                out: _,
            } => self.undo(past, entry, made, nothing_left),
            Entry::Report { call: _, told: _ } => self.report(past, entry),
            Entry::Abort { pid: _ } => self.abort(past, entry),
            Entry::Adopt { sheets: _ } => self.adopt(past, entry),
            Entry::Base { part } => self.base(past, part, made),
            Entry::Start { sheets: _ } | Entry::Up { server: _ } => {}
        }
    }
}
