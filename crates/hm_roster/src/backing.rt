//! Claims that are given up.
ghost use Rattle.std.specs.Prelude.{◌≡◌, ◌≤◌, ℕ, List};
ghost use Rattle.hm_model.specs.Locks.{IsIn};
ghost use Rattle.hm_model.specs.Claims.{Unclaims};
ghost use Rattle.hm_roster.specs.Desk.{room_on};
ghost use Rattle.hm_roster.specs.Roster.{Follows, IsSameBut, number_on};
ghost use Rattle.hm_sched.specs.Queues.{StandsNowhere};
ghost use Rattle.hm_tied.specs.Calls.{owing};
ghost use Rattle.hm_tied.specs.Tied.{IsTiedBut};

use crate::abilities::is_of_crash;
use crate::claims::unclaim;
use crate::desk::Desk;
use hm_lists::Steps;
use hm_names::Pid;
use hm_records::Records;
use std::marker::Brand;
use std::sync::ledger::{Blank, Ledger};

impl Desk {
    // Without a step it gives back what it took, and those who waited for that are ready.
    fn let_go<L: Ledger>(&mut self, records: &Records, pid: Pid, steps: &mut Steps<L>)
        requires follows { Follows records.now.past self.old }
        requires mine { IsIn pid.0 self.old.claimed.items }
        ensures owes { (left : List ℕ) → Unclaims pid.0 self.old.claimed.items left → IsTiedBut records.now.past (number_on self.new) (record { claimed = left; lists = self.new.sched.lists; rows = self.new.book.rows }) (owing pid.0) }
        ensures nowhere { StandsNowhere self.new.sched.lists pid.0 }
        ensures same { IsSameBut self.old self.new }
        ensures room { room_on self.new ≡ room_on self.old }
    {
        if !records.procedures().has_step(pid) {
            self.book.give_up(pid);
            self.sched.freed(pid, steps);
        }
    }

    // The same, with a count of steps of its own.
    fn let_go_uncounted<L: Ledger>(&mut self, records: &Records, pid: Pid, blank: Blank)
        requires name { blank.name ≡ L.name }
        requires parts { blank.parts ≡ L.parts }
        requires some { 1 ≤ L.parts }
        requires follows { Follows records.now.past self.old }
        requires mine { IsIn pid.0 self.old.claimed.items }
        ensures owes { (left : List ℕ) → Unclaims pid.0 self.old.claimed.items left → IsTiedBut records.now.past (number_on self.new) (record { claimed = left; lists = self.new.sched.lists; rows = self.new.book.rows }) (owing pid.0) }
        ensures nowhere { StandsNowhere self.new.sched.lists pid.0 }
        ensures same { IsSameBut self.old self.new }
        ensures room { room_on self.new ≡ room_on self.old }
    {
        let mut steps = Steps::<L>::new(blank);
        self.let_go(records, pid, &mut steps);
    }

    /// A claim is given up: the procedure is ready again, and where it has no step it gives back what it took, and those who waited
    /// for that are ready. It takes no memory.
    pub fn put_back(&mut self, records: &Records, pid: Pid)
        requires follows { Follows records.now.past self.old }
        requires mine { IsIn pid.0 self.old.claimed.items }
        ensures follows { Follows records.now.past self.new }
        ensures claimed { Unclaims pid.0 self.old.claimed.items self.new.claimed.items }
        ensures numbers { self.new.numbers ≡ self.old.numbers }
        ensures pids { self.new.sched.pids ≡ self.old.sched.pids }
        ensures servers { self.new.sched.servers ≡ self.old.sched.servers }
        ensures room { room_on self.new ≡ room_on self.old }
    {
        let _legal = records.procedures();
        self.let_go_uncounted::<Brand>(records, pid, Blank::new(1));
        unclaim(&mut self.claimed, pid.0);
        let servers = is_of_crash(records, pid);
        self.sched.ready(pid, servers);
    }
}
