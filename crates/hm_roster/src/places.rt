//! Where a procedure belongs, after an entry.
ghost use Rattle.std.specs.Prelude.{◌≡◌, ◌≢◌, ◌≤◌, ◌<◌, ℕ, IfSome, None, true};
ghost use Rattle.hm_locks.specs.Book.{AreChanged, IsEnlisted, row_of};
ghost use Rattle.hm_model.specs.Journal.{Past};
ghost use Rattle.hm_model.specs.Locks.{IsIn};
ghost use Rattle.hm_model.specs.Phase.{ended};
ghost use Rattle.hm_model.specs.Rules.{IsLegal};
ghost use Rattle.hm_model.specs.Tree.{node_of};
ghost use Rattle.hm_roster.specs.Roster.{HasLists, IsSameBut, Owes, finished, paid, paid_from, paid_if};
ghost use Rattle.hm_sched.specs.Queues.{StandsNowhere};
ghost use Rattle.hm_sched.specs.Moves.{pid_in};
ghost use Rattle.hm_tied.specs.Calls.{without};
ghost use Rattle.hm_tied.specs.Tied.{Debts, IsOpen};

use crate::abilities::{awaits, can_go, is_of_crash};
use crate::claims::is_claimed;
use crate::desk::Desk;
use hm_lists::Steps;
use hm_names::Pid;
use hm_records::Records;
use std::sync::ledger::Ledger;

impl Desk {
    // An unclaimed procedure that stands nowhere becomes ready where it can go on, and is suspended where it waits for the answer to
    // its call.
    fn place<L: Ledger>(&mut self, records: &Records, pid: Pid, steps: &mut Steps<L>)
        requires known { pid.0 < self.old.sched.pids }
        requires below { HasLists self.old }
        requires nowhere { StandsNowhere self.old.sched.lists pid.0 }
        requires opened { IsOpen records.now.past pid.0 }
        requires unclaimed { IsIn pid.0 self.old.claimed.items → ⊥ }
        ensures owes { (debts : Debts) → Owes records.now.past self.old debts → Owes records.now.past self.new (record debts { owed = without debts.owed pid.0 }) }
        ensures same { IsSameBut self.old self.new }
        ensures rows { self.new.book.rows ≡ self.old.book.rows }
    {
        if can_go(records, pid) {
            let servers = is_of_crash(records, pid);
            self.sched.ready(pid, servers);
        } else if awaits(records, pid) {
            let server = self.number_called(records, pid);
            self.sched.suspend(pid, server, steps);
        }
    }

    // A procedure that an entry may let go on stands where it belongs.
    pub(crate) fn line_up<L: Ledger>(&mut self, records: &Records, pid: Pid, steps: &mut Steps<L>)
        requires known { pid.0 < self.old.sched.pids }
        requires below { HasLists self.old }
        requires there { node_of records.now.past pid.0 ≢ None }
        ensures owes { (debts : Debts) → Owes records.now.past self.old debts → Owes records.now.past self.new (paid debts pid.0) }
        ensures same { IsSameBut self.old self.new }
        ensures rows { self.new.book.rows ≡ self.old.book.rows }
    {
        let procedures = records.procedures();
        self.sched.wake(pid, steps);
        if is_claimed(&self.claimed, pid.0) {
            return;
        }
        if procedures.has_ended(pid) {
            return;
        }
        if self.sched.stands(pid) {
            return;
        }
        self.place(records, pid, steps);
    }

    // The same of one that may be there.
    pub(crate) fn line_up_if<L: Ledger>(
        &mut self,
        records: &Records,
        pid: Option<Pid>,
        steps: &mut Steps<L>,
    )
        requires known { IfSome pid (λ p. p.0 < self.old.sched.pids) }
        requires below { HasLists self.old }
        requires there { IfSome pid (λ p. node_of records.now.past p.0 ≢ None) }
        ensures owes { (debts : Debts) → Owes records.now.past self.old debts → Owes records.now.past self.new (paid_if debts (pid_in pid)) }
        ensures same { IsSameBut self.old self.new }
        ensures rows { self.new.book.rows ≡ self.old.book.rows }
    {
        if let Some(pid) = pid {
            self.line_up(records, pid, steps);
        }
    }

    // The same of those from one number on, to below another.
    pub(crate) fn line_up_from<L: Ledger>(
        &mut self,
        records: &Records,
        low: u64,
        high: u64,
        steps: &mut Steps<L>,
    )
        requires order { low ≤ high }
        requires known { high ≤ self.old.sched.pids }
        requires below { HasLists self.old }
        requires there { (p : ℕ) → low ≤ p → p < high → node_of records.now.past p ≢ None }
        ensures owes { (debts : Debts) → Owes records.now.past self.old debts → Owes records.now.past self.new (paid_from debts low high) }
        ensures same { IsSameBut self.old self.new }
        ensures rows { self.new.book.rows ≡ self.old.book.rows }
    {
        for pid in low..high {
            self.line_up(records, Pid(pid), steps);
        }
    }

    // Who has ended leaves its list and the book, and those who waited for it are ready.
    fn finish<L: Ledger>(&mut self, pid: Pid, steps: &mut Steps<L>)
        requires known { pid.0 < self.old.sched.pids }
        requires enlisted { IsEnlisted self.old.book.rows pid.0 }
        ensures owes { (before : Past) (debts : Debts) → IsLegal before → ended before pid.0 ≡ true → Owes before self.old debts → Owes before self.new (finished debts pid.0) }
        ensures same { IsSameBut self.old self.new }
        ensures rows { AreChanged self.old.book.rows pid.0 None self.new.book.rows }
    {
        self.sched.leave(pid, steps);
        self.book.release(pid);
        self.sched.freed(pid, steps);
    }

    // The same of one that an entry may have ended.
    pub(crate) fn finish_if<L: Ledger>(&mut self, records: &Records, pid: Pid, steps: &mut Steps<L>)
        requires known { pid.0 < self.old.sched.pids }
        requires there { node_of records.now.past pid.0 ≢ None }
        requires enlisted { ended records.now.past pid.0 ≡ true → IsEnlisted self.old.book.rows pid.0 }
        ensures owes { (debts : Debts) → Owes records.now.past self.old debts → Owes records.now.past self.new (finished debts pid.0) }
        ensures same { IsSameBut self.old self.new }
        ensures others { (q : ℕ) → q ≢ pid.0 → row_of self.new.book.rows q ≡ row_of self.old.book.rows q }
    {
        if records.procedures().has_ended(pid) {
            self.finish(pid, steps);
        }
    }
}
