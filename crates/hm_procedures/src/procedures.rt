ghost use Rattle.std.specs.Prelude.{◌≡◌, ◌≢◌, ℕ, ◌+◌, ◌<◌, ◌≤◌, ◌^◌, ◌↔◌, [], ◌∷◌, length, IfOk, OnOk, None, true, is_some, IsTrue};
ghost use Rattle.std.specs.Option.{option_copied};
ghost use Rattle.hm_model.specs.Answers.{last_answer, report_of};
ghost use Rattle.hm_model.specs.Apart.{tree_of};
ghost use Rattle.hm_model.specs.Editions.{editions};
ghost use Rattle.hm_model.specs.Inputs.{ends_of, made_at_step};
ghost use Rattle.hm_model.specs.Phase.{child_in, ended};
ghost use Rattle.hm_model.specs.Procedures.{offset};
ghost use Rattle.hm_model.specs.Records.{record_of, unfinished};
ghost use Rattle.hm_model.specs.Reports.{call_of, is_settled, verb_of};
ghost use Rattle.hm_model.specs.Rest.{MayUndo};
ghost use Rattle.hm_model.specs.Rules.{IsLegal};
ghost use Rattle.hm_model.specs.Tree.{made, node_of};
ghost use Rattle.hm_model.specs.Undo.{is_empty, stack};
ghost use Rattle.hm_model.specs.Waiting.{children_made, ends_one};
ghost use Rattle.hm_procedures.specs.Below.{is_below};
ghost use Rattle.hm_procedures.specs.Kept.{args_made, first_child_of, kept_of, made_in_step};
ghost use Rattle.hm_model.specs.OldRoots.{old_record_of, old_records};
ghost use Rattle.hm_procedures.specs.Procedures.{IsNextChild, children, roots, unfinished_procedures};

use crate::book::{Book, less_if};
use crate::calls::call_with;
use crate::ends::ends_from;
use crate::journal::Journal;
use crate::kept::{Tracked, is_stop, kept_at};
use crate::old::find_old;
use hm_data::{Args, Call, Entry, Record, Told};
use hm_model::laws::calls_are_own;
use hm_names::{List, Pid};
use std::alloc::{AllocError, Global};
use std::marker::Model;

/// The procedures of a journal as they stand. Contracts see the journal, back from its newest entry, and for how many
/// procedures more there is room.
#[derive(Drop)]
pub struct Procedures {
    past: Journal,
    book: Book,
    // How many descendants haven't ended.
    below: u64,
}

impl Model for Procedures {
    ghost use Rattle.std.specs.Prelude.{◌≡◌};
    ghost use Rattle.hm_procedures.specs.Below.{open_below};
    ghost use Rattle.hm_procedures.specs.Book.{IsBook, room_of, spare_of};
    ghost use Rattle.hm_procedures.specs.Procedures.{ProceduresView};

    ghost Value = { ProceduresView };

    ghost view = { λ s. record { past = s.past.entries; spare = spare_of s.book; room = room_of s.book } };

    ghost invariant = { λ s. IsBook s.past.entries s.book × (s.below ≡ open_below s.past.entries) };
}

impl Procedures {
    /// No procedure, before any entry.
    pub fn new(alloc: Global) -> Result<Procedures, AllocError>
        ensures { IfOk result (λ it. it.past ≡ []) }
    {
        Ok(Procedures {
            past: Journal::new(),
            book: Book::new(alloc),
            below: 0,
        })
    }

    /// The journal with one entry more, for what has to remember it.
    pub fn journal_with(&self, entry: &Entry) -> Journal
        ensures { result.entries ≡ entry.now ∷ self.now.past }
    {
        self.past.then(entry)
    }

    /// The number before that of the first procedure that an entry made: the last of a base, where there is one.
    pub fn offset(&self) -> u64
        ensures { result ≡ offset self.now.past }
    {
        self.book.offset
    }

    /// The edition in force: how often sheets were adopted, since the base where there is one.
    pub fn editions(&self) -> u64
        ensures { result ≡ editions self.now.past }
    {
        self.book.editions
    }

    /// The roots of the base as they are shown, in the order of their numbers.
    pub fn old_roots(&self) -> &[Record]
        ensures { result.now ≡ old_records self.now.past }
    {
        self.book.old_roots.as_slice()
    }

    /// The root of the base that has a number, as it is shown.
    pub fn find_old(&self, pid: Pid) -> Option<&Record>
        ensures { option_copied result ≡ old_record_of self.now.past pid.0 }
    {
        find_old(&self.book.old_roots, pid)
    }

    /// The number of the procedure that was made last; 0 where there is none.
    pub fn last_pid(&self) -> u64
        ensures last { result ≡ made self.now.past }
        ensures small { result ≤ 2 ^ 63 + 2 ^ 48 }
        ensures legal { IsLegal self.now.past }
    {
        self.book.offset + self.book.kept.len() as u64
    }

    // What is kept of a procedure.
    fn kept(&self, pid: Pid) -> Option<&Tracked>
        ensures kept { option_copied result ≡ kept_of self.now.past pid.0 }
        ensures legal { IsLegal self.now.past }
    {
        let kept = &self.book.kept;
        if pid.0 <= self.book.offset {
            return None;
        }
        kept_at(kept, pid.0 - self.book.offset - 1)
    }

    /// A procedure as it stands.
    pub fn find(&self, pid: Pid) -> Option<&Record>
        ensures { option_copied result ≡ record_of self.now.past pid.0 }
    {
        match self.kept(pid) {
            Some(kept) => Some(&kept.shown),
            None => None,
        }
    }

    /// The roots, in the order of their numbers.
    pub fn roots(&self) -> &[Pid]
        ensures { result.now ≡ roots self.now.past }
    {
        self.book.trees.tops()
    }

    /// Whether it has made a step.
    pub fn has_step(&self, pid: Pid) -> bool
        ensures { IsTrue result ↔ (last_answer self.now.past pid.0 ≢ None) }
    {
        match self.kept(pid) {
            Some(kept) => kept.last.is_some(),
            None => false,
        }
    }

    /// Whether it has ended.
    pub fn has_ended(&self, pid: Pid) -> bool
        ensures { result ≡ ended self.now.past pid.0 }
    {
        match self.kept(pid) {
            Some(kept) => kept.has_ended(),
            None => false,
        }
    }

    /// The report of its call.
    pub fn report(&self, pid: Pid) -> Option<Told>
        ensures { result ≡ report_of self.now.past pid.0 }
    {
        match self.kept(pid) {
            Some(kept) => kept.report,
            None => None,
        }
    }

    /// Whether it has made a call. Its verb is that of what the procedure works on.
    pub fn has_called(&self, pid: Pid) -> bool
        ensures { result ≡ is_some (verb_of self.now.past pid.0) }
    {
        match self.kept(pid) {
            Some(kept) => kept.has_called,
            None => false,
        }
    }

    /// The call that it made, with its number as the id.
    pub fn call(&self, alloc: Global, pid: Pid) -> Result<Option<Call>, AllocError>
        ensures { IfOk result (λ call. call ≡ call_of self.now.past pid.0) }
    {
        calls_are_own();
        let Some(kept) = self.kept(pid) else {
            return Ok(None);
        };
        if !kept.has_called {
            return Ok(None);
        }
        call_with(alloc, pid, &kept.shown.args)
    }

    /// Whether its call, if it made one, is settled: it has a report, or the procedure has ended.
    pub fn is_settled(&self, pid: Pid) -> bool
        ensures { result ≡ is_settled self.now.past pid.0 }
    {
        self.report(pid).is_some() || self.has_ended(pid)
    }

    /// Whether it is a failed root with its descendants ended and something left to undo.
    pub fn undoes(&self, pid: Pid) -> bool
        ensures { IsTrue result ↔ MayUndo self.now.past pid.0 }
    {
        match self.kept(pid) {
            Some(kept) => kept.undoes(),
            None => false,
        }
    }

    /// What those children that its last step made ended with, in the order of their numbers, where they ended well.
    pub fn ends(&self, alloc: Global, pid: Pid) -> Result<List<(Pid, Told)>, AllocError>
        ensures { IfOk result (λ ends. ends ≡ ends_of self.now.past pid.0) }
    {
        let (from, count) = self.last_made(pid);
        ends_from(alloc, self.book.offset, &self.book.kept, from, count)
    }

    // How many procedures had been made before the last step of a procedure, and how many that made.
    fn last_made(&self, pid: Pid) -> (u64, u64)
        ensures { (result.0 ≡ made_at_step self.now.past pid.0) × (result.1 ≡ made_in_step self.now.past pid.0) }
    {
        match self.kept(pid) {
            Some(kept) => (kept.made_at_step, kept.made_in_step),
            None => (0, 0),
        }
    }

    /// Its children, in the order of their numbers.
    pub fn children(&self, alloc: Global, pid: Pid) -> Result<List<Pid>, AllocError>
        ensures { IfOk result (λ list. list ≡ children self.now.past pid.0) }
    {
        let _legal = self.last_pid();
        let mut children = Vec::new(alloc);
        let mut at = self.first_child(pid);
        while let Some(child) = at {
            children.push(child)?;
            at = self.next_sibling(child);
        }
        Ok(List::of(children))
    }

    // The first child of a procedure.
    fn first_child(&self, pid: Pid) -> Option<Pid>
        ensures { result ≡ first_child_of self.now.past pid.0 }
    {
        match self.kept(pid) {
            Some(kept) => kept.first_child,
            None => None,
        }
    }

    // The next child of its parent.
    fn next_sibling(&self, pid: Pid) -> Option<Pid>
        ensures { (parent : ℕ) → child_in parent (node_of self.now.past pid.0) ≡ true → IsNextChild self.now.past parent pid.0 result }
    {
        self.kept(pid)?;
        self.book.siblings.next(pid)
    }

    /// How many roots haven't ended.
    pub fn unfinished(&self) -> u64
        ensures { result ≡ unfinished self.now.past }
    {
        self.book.unfinished
    }

    /// How many procedures haven't ended, roots and descendants.
    pub fn unfinished_procedures(&self) -> u64
        ensures { result ≡ unfinished_procedures self.now.past }
    {
        self.book.unfinished + self.below
    }

    // Whether it is there, and a descendant.
    fn is_below(&self, pid: Pid) -> bool
        ensures { result ≡ is_below (node_of self.now.past pid.0) }
    {
        match self.find(pid) {
            Some(record) => record.parent.is_some(),
            None => false,
        }
    }

    // How many descendants an entry makes.
    fn made_below(&self, entry: &Entry, made: &List<Args>) -> u64
        requires { made.now ≡ args_made self.now.past entry.now }
        ensures { result ≡ children_made entry.now }
    {
        match entry {
            Entry::Step {
                pid: _,
                pick: _,
                out: _,
            } => made.as_slice().len() as u64,
            _ => 0,
        }
    }

    // Whether an entry ends a descendant.
    fn ends_descendant(&self, entry: &Entry) -> bool
        ensures { result ≡ ends_one (λ q. is_below (node_of self.now.past q)) entry.now }
    {
        match entry {
            Entry::Step { pid, pick: _, out } => self.is_below(*pid) && is_stop(&out.answer),
            _ => false,
        }
    }

    /// Makes room for so many procedures more.
    pub fn reserve(&mut self, _alloc: Global, count: u64) -> Result<(), AllocError>
        ensures past { self.new.past ≡ self.old.past }
        ensures room { OnOk result (count ≤ self.new.spare) }
        ensures kept { self.old.spare ≤ self.new.spare }
    {
        self.book.reserve(count)
    }

    /// Takes in an entry: `made` are what the procedures that it makes work on, in order, of a part of a base what its root works
    /// on; `nothing_left` is whether nothing is left to undo of its tree after it. It takes no memory.
    pub fn enter(&mut self, entry: &Entry, made: List<Args>, nothing_left: bool)
        requires legal { IsLegal (entry.now ∷ self.old.past) }
        requires few { editions (entry.now ∷ self.old.past) < 2 ^ 64 }
        requires made { made ≡ args_made self.old.past entry.now }
        requires left { nothing_left ≡ is_empty (stack (entry.now ∷ self.old.past) (tree_of self.old.past entry.now)) }
        requires room { length made ≤ self.old.spare }
        ensures past { self.new.past ≡ entry.now ∷ self.old.past }
        ensures spare { self.old.spare ≤ self.new.spare + length made }
        ensures room { self.new.room ≡ self.old.room }
    {
        let more = self.made_below(entry, &made);
        let ends = self.ends_descendant(entry);
        self.book.enter(&self.past, entry, made, nothing_left);
        self.past = self.past.then(entry);
        self.below = less_if(self.below + more, ends);
    }
}
