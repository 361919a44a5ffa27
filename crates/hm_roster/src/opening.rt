//! A desk that is made from what a journal says.
ghost use Rattle.std.specs.Prelude.{◌≡◌, ℕ, ◌+◌, ◌<◌, ◌≤◌, [], Bool, IfOk, OnOk, true};
ghost use Rattle.hm_model.specs.Fleet.{came_up};
ghost use Rattle.hm_model.specs.Procedures.{offset};
ghost use Rattle.hm_model.specs.Tree.{made};
ghost use Rattle.hm_names.specs.Server.{Server};
ghost use Rattle.hm_roster.specs.Desk.{IsNumbered, IsSameButBook};
ghost use Rattle.hm_roster.specs.Opening.{IsBookBelow, IsReadyBelow, open_among};
ghost use Rattle.hm_roster.specs.Roster.{Follows, HasLists, IsSameBut};
ghost use Rattle.hm_sched.specs.Queues.{IsReady, members, ready_list};
ghost use Rattle.hm_sched.specs.declared.queue.Queue.{Queue};
ghost use Rattle.hm_tied.specs.Tied.{IsOpen};

use crate::abilities::is_of_crash;
use crate::desk::Desk;
use hm_names::Pid;
use hm_records::Records;
use std::alloc::{AllocError, Global};

// The number of the first procedure, behind the last of a base.
fn first_pid(records: &Records) -> u64
    ensures { result ≡ offset records.now.past + 1 }
{
    let procedures = records.procedures();
    let _last = procedures.last_pid();
    procedures.offset() + 1
}

impl Desk {
    // Enlists a procedure that hasn't ended, with its parent. It takes what it asks for where it has a step.
    fn open_row(&mut self, alloc: Global, records: &Records, pid: Pid) -> Result<(), AllocError>
        requires { IsBookBelow records.now.past self.old.book.rows pid.0 }
        ensures book { OnOk result (IsBookBelow records.now.past self.new.book.rows (pid.0 + 1)) }
        ensures same { IsSameButBook self.old self.new }
    {
        let procedures = records.procedures();
        let Some(found) = procedures.find(pid) else {
            return Ok(());
        };
        if procedures.has_ended(pid) {
            return Ok(());
        }
        self.enlist_one(alloc, pid, found.parent, &found.args)?;
        if procedures.has_step(pid) {
            self.book.take(pid);
        }
        Ok(())
    }

    // All that haven't ended are enlisted, and those hold that have a step.
    fn open_rows(&mut self, alloc: Global, records: &Records) -> Result<(), AllocError>
        requires { self.old.book.rows ≡ [] }
        ensures book { OnOk result (IsBookBelow records.now.past self.new.book.rows (made records.now.past + 1)) }
        ensures same { IsSameButBook self.old self.new }
    {
        let last = records.procedures().last_pid();
        for pid in first_pid(records)..last + 1 {
            self.open_row(alloc, records, Pid(pid))?;
        }
        Ok(())
    }

    // A procedure is ready unless it has ended.
    fn ready_one(&mut self, records: &Records, pid: Pid)
        requires known { pid.0 < self.old.sched.pids }
        requires low { offset records.now.past < pid.0 }
        requires high { pid.0 ≤ made records.now.past }
        requires below { IsReadyBelow records.now.past self.old pid.0 }
        requires free { self.old.claimed.items ≡ [] }
        ensures below { IsReadyBelow records.now.past self.new (pid.0 + 1) }
        ensures same { IsSameBut self.old self.new }
    {
        let procedures = records.procedures();
        if procedures.has_ended(pid) {
            return;
        }
        let servers = is_of_crash(records, pid);
        self.sched.ready(pid, servers);
    }

    // All that haven't ended are ready, in the order of their numbers.
    fn ready_all(&mut self, records: &Records)
        requires room { made records.now.past < self.old.sched.pids }
        requires below { HasLists self.old }
        requires none { IsReadyBelow records.now.past self.old (offset records.now.past + 1) }
        requires free { self.old.claimed.items ≡ [] }
        ensures follows { Follows records.now.past self.new }
        ensures order { (servers : Bool) → members self.new.sched.lists (ready_list servers) ≡ open_among records.now.past servers (made records.now.past) }
        ensures ready { (q : ℕ) → IsOpen records.now.past q → IsReady self.new.sched.lists q }
        ensures same { IsSameBut self.old self.new }
    {
        let last = records.procedures().last_pid();
        for pid in first_pid(records)..last + 1 {
            self.ready_one(records, Pid(pid));
        }
    }

    // Makes what a desk needs of memory, and the rows.
    fn fill(&mut self, alloc: Global, records: &Records) -> Result<(), AllocError>
        requires below { HasLists self.old }
        requires none { self.old.book.rows ≡ [] }
        ensures numbered { OnOk result ((server : Server) → came_up records.now.past server ≡ true → IsNumbered self.new server) }
        ensures book { OnOk result (IsBookBelow records.now.past self.new.book.rows (made records.now.past + 1)) }
        ensures room { OnOk result (made records.now.past < self.new.sched.pids) }
        ensures below { HasLists self.new }
        ensures claimed { self.new.claimed ≡ self.old.claimed }
        ensures lists { (k : Queue) → members self.new.sched.lists k ≡ members self.old.sched.lists k }
    {
        let last = records.procedures().last_pid();
        self.make_room(alloc, last + 1)?;
        self.number_all(alloc, records)?;
        self.open_rows(alloc, records)
    }

    /// A desk that follows a journal of which nothing is under way: each procedure that hasn't ended is enlisted, holds what it asks
    /// for where it has a step, and is ready, in the order of their numbers; and each server that ever came up has a number.
    pub fn open(alloc: Global, records: &Records) -> Result<Desk, AllocError>
        ensures follows { IfOk result (Follows records.now.past) }
        ensures claimed { IfOk result (λ desk. desk.claimed.items ≡ []) }
        ensures order { IfOk result (λ desk. (servers : Bool) → members desk.sched.lists (ready_list servers) ≡ open_among records.now.past servers (made records.now.past)) }
        ensures ready { IfOk result (λ desk. (q : ℕ) → IsOpen records.now.past q → IsReady desk.sched.lists q) }
        ensures numbered { IfOk result (λ desk. (server : Server) → came_up records.now.past server ≡ true → IsNumbered desk server) }
    {
        let _legal = records.procedures();
        let mut desk = Desk::new(alloc)?;
        desk.fill(alloc, records)?;
        desk.ready_all(records);
        Ok(desk)
    }
}
