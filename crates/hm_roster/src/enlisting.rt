//! Procedures that an entry makes are enlisted before it is recorded.
ghost use Rattle.std.specs.Prelude.{◌≡◌, ◌+◌, ◌<◌, ◌∷◌, length, IfSome, Some, None, OnOk, OnErr};
ghost use Rattle.hm_data.specs.declared.entry.Entry.{Entry};
ghost use Rattle.hm_locks.specs.Book.{AreChanged, IsEnlisted, new_row, row_of};
ghost use Rattle.hm_locks.specs.Needs.{HasFirst};
ghost use Rattle.hm_model.specs.Locks.{asks as asked_by};
ghost use Rattle.hm_model.specs.Tree.{made as made_in};
ghost use Rattle.hm_roster.specs.Desk.{HasMore, IsSameButBook, Makes, MayMake};
ghost use Rattle.hm_roster.specs.Roster.{Follows, IsEnlistedFor};

use crate::desk::Desk;
use hm_data::Args;
use hm_locks::asks;
use hm_names::Pid;
use hm_records::Records;
use std::alloc::{AllocError, Global};

impl Desk {
    // Enlists one procedure, which holds nothing yet.
    pub(crate) fn enlist_one(
        &mut self,
        alloc: Global,
        pid: Pid,
        parent: Option<Pid>,
        works_on: &Args,
    ) -> Result<(), AllocError>
        requires first { HasFirst works_on.now }
        requires new { row_of self.old.book.rows pid.0 ≡ None }
        requires parent { IfSome parent (λ p. IsEnlisted self.old.book.rows p.0) }
        ensures ok { OnOk result (AreChanged self.old.book.rows pid.0 (Some (new_row self.old.book.rows pid.0 parent (asked_by works_on.now))) self.new.book.rows) }
        ensures err { OnErr result (self.new.book.rows ≡ self.old.book.rows) }
        ensures same { IsSameButBook self.old self.new }
    {
        let asked = asks(alloc, works_on)?;
        self.book.enlist(alloc, pid, parent, asked)
    }

    /// Enlists the procedures that an entry makes which may follow, with what each works on, and their parent. Where memory runs out
    /// none of them is.
    pub fn enlist(
        &mut self,
        alloc: Global,
        records: &Records,
        made: &[Args],
        parent: Option<Pid>,
    ) -> Result<(), AllocError>
        requires follows { Follows records.now.past self.old }
        requires room { made_in records.now.past + length made.now < self.old.sched.pids }
        requires next { MayMake records.now.past made.now parent }
        ensures ok { OnOk result ((entry : Entry) → Makes records.now.past entry made.now parent → IsEnlistedFor (entry ∷ records.now.past) entry self.new) }
        ensures more { OnOk result (HasMore records.now.past self.new (length made.now)) }
        ensures err { OnErr result (Follows records.now.past self.new) }
        ensures same { IsSameButBook self.old self.new }
    {
        let last = records.procedures().last_pid();
        for (place, works_on) in made.iter().enumerate() {
            let pid = Pid(last + 1 + place as u64);
            if self.enlist_one(alloc, pid, parent, works_on).is_err() {
                self.unlist(records, place as u64);
                return Err(AllocError);
            }
        }
        Ok(())
    }

    /// So many that were enlisted for an entry that wasn't recorded are enlisted no longer.
    pub fn unlist(&mut self, records: &Records, count: u64)
        requires { HasMore records.now.past self.old count }
        ensures follows { Follows records.now.past self.new }
        ensures same { IsSameButBook self.old self.new }
    {
        let last = records.procedures().last_pid();
        for place in 0..count {
            self.book.release(Pid(last + 1 + place));
        }
    }
}
