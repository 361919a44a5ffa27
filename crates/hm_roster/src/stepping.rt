//! What is done after a step, and after what undoes one.
ghost use Rattle.std.specs.Prelude.{◌≡◌, ◌≢◌, ◌≤◌, ◌<◌, IfSome, None, false, true};
ghost use Rattle.hm_locks.specs.Book.{IsEnlisted};
ghost use Rattle.hm_model.specs.Phase.{ended};
ghost use Rattle.hm_model.specs.Tree.{Node, node_of, parent_in};
ghost use Rattle.hm_model.specs.Claims.{Unclaims};
ghost use Rattle.hm_roster.specs.Behind.{IsEntered, IsUndoOf};
ghost use Rattle.hm_roster.specs.Roster.{Follows, HasLists, IsSameBut, IsStepOf, Owes, finished, paid, paid_if};
ghost use Rattle.hm_sched.specs.Moves.{pid_in};
ghost use Rattle.hm_tied.specs.Tied.{Debts};

use crate::claims::unclaim;
use crate::desk::Desk;
use hm_lists::Steps;
use hm_names::Pid;
use hm_records::Records;
use std::marker::Brand;
use std::sync::ledger::{Blank, Ledger};

// The parent of a procedure, if it has one, and its root.
fn kin_of(records: &Records, pid: Pid) -> (Option<Pid>, Pid)
    ensures parent { (node : Node) → node_of records.now.past pid.0 ≡ Some node → pid_in result.0 ≡ parent_in node.above }
    ensures root { (node : Node) → node_of records.now.past pid.0 ≡ Some node → result.1.0 ≡ node.root }
{
    match records.procedures().find(pid) {
        Some(found) => (found.parent, found.root),
        None => (None, pid),
    }
}

impl Desk {
    // The root of a procedure, where that is another one, may have ended too.
    fn finish_other<L: Ledger>(
        &mut self,
        records: &Records,
        pid: Pid,
        root: Pid,
        steps: &mut Steps<L>,
    )
        requires known { root.0 < self.old.sched.pids }
        requires there { node_of records.now.past root.0 ≢ None }
        requires enlisted { root.0 ≢ pid.0 → ended records.now.past root.0 ≡ true → IsEnlisted self.old.book.rows root.0 }
        ensures owes { (debts : Debts) → debts.over pid.0 ≡ false → Owes records.now.past self.old debts → Owes records.now.past self.new (finished debts root.0) }
        ensures same { IsSameBut self.old self.new }
    {
        if root != pid {
            self.finish_if(records, root, steps);
        }
    }

    // A procedure and its root may have ended.
    fn finish_both<L: Ledger>(
        &mut self,
        records: &Records,
        pid: Pid,
        root: Pid,
        steps: &mut Steps<L>,
    )
        requires known { pid.0 < self.old.sched.pids }
        requires there { node_of records.now.past pid.0 ≢ None }
        requires enlisted { IsEnlisted self.old.book.rows pid.0 }
        requires root_known { root.0 < self.old.sched.pids }
        requires root_there { node_of records.now.past root.0 ≢ None }
        requires root_enlisted { IsEnlisted self.old.book.rows root.0 }
        ensures owes { (debts : Debts) → Owes records.now.past self.old debts → Owes records.now.past self.new (finished (finished debts pid.0) root.0) }
        ensures same { IsSameBut self.old self.new }
    {
        self.finish_if(records, pid, steps);
        self.finish_other(records, pid, root, steps);
    }

    // The root of a procedure, where that is another one, stands where it belongs too. A root that called was suspended just now, and
    // its own step doesn't wake it.
    fn line_up_other<L: Ledger>(
        &mut self,
        records: &Records,
        pid: Pid,
        root: Pid,
        steps: &mut Steps<L>,
    )
        requires known { root.0 < self.old.sched.pids }
        requires there { node_of records.now.past root.0 ≢ None }
        requires below { HasLists self.old }
        ensures owes { (debts : Debts) → debts.owed pid.0 ≡ false → debts.slack pid.0 ≡ false → Owes records.now.past self.old debts → Owes records.now.past self.new (paid debts root.0) }
        ensures same { IsSameBut self.old self.new }
    {
        if root != pid {
            self.line_up(records, root, steps);
        }
    }

    // A procedure, its parent and its root stand where they belong.
    fn line_up_kin<L: Ledger>(
        &mut self,
        records: &Records,
        pid: Pid,
        parent: Option<Pid>,
        root: Pid,
        steps: &mut Steps<L>,
    )
        requires known { pid.0 < self.old.sched.pids }
        requires there { node_of records.now.past pid.0 ≢ None }
        requires parent_known { IfSome parent (λ p. p.0 < self.old.sched.pids) }
        requires parent_there { IfSome parent (λ p. node_of records.now.past p.0 ≢ None) }
        requires root_known { root.0 < self.old.sched.pids }
        requires root_there { node_of records.now.past root.0 ≢ None }
        requires below { HasLists self.old }
        ensures owes { (debts : Debts) → Owes records.now.past self.old debts → Owes records.now.past self.new (paid (paid_if (paid debts pid.0) (pid_in parent)) root.0) }
        ensures same { IsSameBut self.old self.new }
    {
        self.line_up(records, pid, steps);
        self.line_up_if(records, parent, steps);
        self.line_up_other(records, pid, root, steps);
    }

    // Who has ended is enlisted no longer, and those who waited for it are ready; then those that were made, from this number on, the
    // procedure that went on, its parent and its root stand where they belong; then those that were set aside are ready, where they
    // may go on.
    fn look_at<L: Ledger>(
        &mut self,
        records: &Records,
        pid: Pid,
        low: u64,
        late: bool,
        steps: &mut Steps<L>,
    )
        requires { IsEntered records.now.past pid.0 low late self.old }
        ensures follows { Follows records.now.past self.new }
        ensures same { IsSameBut self.old self.new }
    {
        let high = records.procedures().last_pid() + 1;
        let (parent, root) = kin_of(records, pid);
        self.finish_both(records, pid, root, steps);
        self.line_up_from(records, low, high, steps);
        self.line_up_kin(records, pid, parent, root, steps);
        self.wake_if(late, steps);
    }

    // The same, with a count of steps of its own.
    fn look_at_uncounted<L: Ledger>(
        &mut self,
        records: &Records,
        pid: Pid,
        low: u64,
        late: bool,
        blank: Blank,
    )
        requires name { blank.name ≡ L.name }
        requires parts { blank.parts ≡ L.parts }
        requires some { 1 ≤ L.parts }
        requires entered { IsEntered records.now.past pid.0 low late self.old }
        ensures follows { Follows records.now.past self.new }
        ensures same { IsSameBut self.old self.new }
    {
        let mut steps = Steps::<L>::new(blank);
        self.look_at(records, pid, low, late, &mut steps);
    }

    /// After a step of a claimed procedure, whose children are enlisted: who has ended is enlisted no longer, and those who waited
    /// for it are ready; then its children, itself, its parent and its root, where they can go on; then those that were set aside for
    /// want of a live server, where rows changed.
    pub fn behind_step(&mut self, records: &Records, pid: Pid, low: u64, late: bool)
        requires { IsStepOf records.now.past pid low late self.old }
        ensures follows { Follows records.now.past self.new }
        ensures claimed { Unclaims pid.0 self.old.claimed.items self.new.claimed.items }
        ensures numbers { self.new.numbers ≡ self.old.numbers }
        ensures pids { self.new.sched.pids ≡ self.old.sched.pids }
        ensures servers { self.new.sched.servers ≡ self.old.sched.servers }
    {
        let _legal = records.procedures();
        unclaim(&mut self.claimed, pid.0);
        self.look_at_uncounted::<Brand>(records, pid, low, late, Blank::new(1));
    }

    /// After an undo of a step in the tree of a claimed root, whose followers are enlisted: where the root has ended it is enlisted no
    /// longer, and those who waited for it are ready; then its followers and itself, where they can go on; then those that were set
    /// aside for want of a live server, where rows changed.
    pub fn behind_undo(&mut self, records: &Records, root: Pid, low: u64, late: bool)
        requires { IsUndoOf records.now.past root low late self.old }
        ensures follows { Follows records.now.past self.new }
        ensures claimed { Unclaims root.0 self.old.claimed.items self.new.claimed.items }
        ensures numbers { self.new.numbers ≡ self.old.numbers }
        ensures pids { self.new.sched.pids ≡ self.old.sched.pids }
        ensures servers { self.new.sched.servers ≡ self.old.sched.servers }
    {
        let _legal = records.procedures();
        unclaim(&mut self.claimed, root.0);
        self.look_at_uncounted::<Brand>(records, root, low, late, Blank::new(1));
    }
}
