//! Who comes next.
ghost use Rattle.std.specs.Prelude.{◌≡◌, ◌+◌, ◌≤◌, ℕ, IfNone, IfSome, Some, false};
ghost use Rattle.hm_locks.specs.Book.{asks_in, row_of};
ghost use Rattle.hm_model.specs.Rest.{IsAvailable};
ghost use Rattle.hm_model.specs.Picks.{has_pick as picks};
ghost use Rattle.hm_model.specs.Tree.{Node, node_of};
ghost use Rattle.hm_roster.specs.Looks.{Looks, ready_in};
ghost use Rattle.hm_roster.specs.Roster.{Follows, IsGiven, IsSameBut, Owes};
ghost use Rattle.hm_sched.specs.Moves.{pid_in};
ghost use Rattle.hm_sched.specs.Queues.{StandsIn, ready_count};
ghost use Rattle.hm_sched.specs.declared.queue.Queue.TheVariants.{Waits};
ghost use Rattle.hm_tied.specs.Calls.{owing};
ghost use Rattle.hm_tied.specs.Tied.{CanGo};

use crate::abilities::{awaits, can_go};
use crate::desk::Desk;
use hm_judge::has_pick;
use hm_lists::Steps;
use hm_names::Pid;
use hm_records::Records;
use std::sync::ledger::Ledger;

impl Desk {
    // A procedure that was given and isn't claimed holds again what it held before: nothing where it has no step.
    pub(crate) fn give_back(&mut self, records: &Records, pid: Pid)
        requires { IsGiven records.now.past self.old pid.0 }
        ensures owes { Owes records.now.past self.new (owing pid.0) }
        ensures same { IsSameBut self.old self.new }
        ensures lists { self.new.sched.lists ≡ self.old.sched.lists }
        ensures asks { (q : ℕ) → asks_in (row_of self.new.book.rows q) ≡ asks_in (row_of self.old.book.rows q) }
    {
        if !records.procedures().has_step(pid) {
            self.book.give_up(pid);
        }
    }

    // A procedure that was given and can't go on is set aside until it may.
    fn set_aside<L: Ledger>(&mut self, records: &Records, pid: Pid, steps: &mut Steps<L>)
        requires given { IsGiven records.now.past self.old pid.0 }
        requires stuck { CanGo records.now.past pid.0 → (node : Node) → node_of records.now.past pid.0 ≡ Some node → picks records.now.past pid.0 node ≡ false }
        ensures follows { Follows records.now.past self.new }
        ensures same { IsSameBut self.old self.new }
        ensures ready { ready_count self.new.sched.lists ≡ ready_count self.old.sched.lists }
        ensures same_ready { ready_in self.new.sched.lists ≡ ready_in self.old.sched.lists }
        ensures waits { (h q : ℕ) → StandsIn self.old.sched.lists (Waits h) q → StandsIn self.new.sched.lists (Waits h) q }
        ensures asks { (q : ℕ) → asks_in (row_of self.new.book.rows q) ≡ asks_in (row_of self.old.book.rows q) }
        ensures steps { steps.new ≤ steps.old + 1 }
    {
        self.give_back(records, pid);
        if can_go(records, pid) {
            self.sched.hold(pid, steps);
        } else if awaits(records, pid) {
            let server = self.number_called(records, pid);
            self.sched.suspend(pid, server, steps);
        }
    }

    /// The first ready procedure, servers' before others, that can go on and conflicts with nobody who holds: it has taken what it
    /// asks for. Those in front of it wait for whom they conflict with, or are set aside. None exactly where nobody is available.
    pub fn next<L: Ledger>(&mut self, records: &Records, steps: &mut Steps<L>) -> Option<Pid>
        requires { Follows records.now.past self.old }
        ensures given { IfSome result (λ p. IsGiven records.now.past self.new p.0) }
        ensures available { IfSome result (λ p. IsAvailable records.now.past self.old.claimed.items self.old.claimed.items p.0) }
        ensures follows { IfNone result (Follows records.now.past self.new) }
        ensures none { IfNone result ((q : ℕ) → IsAvailable records.now.past self.old.claimed.items self.old.claimed.items q → ⊥) }
        ensures same { IsSameBut self.old self.new }
        ensures looks { Looks records.now.past self.old.book.rows self.old.sched.lists self.new.sched.lists (pid_in result) steps.old steps.new }
    {
        let _legal = records.procedures();
        while let Some(pid) = self.sched.next(&mut self.book, steps) {
            if can_go(records, pid) && has_pick(records, pid) {
                return Some(pid);
            }
            self.set_aside(records, pid, steps);
        }
        None
    }
}
