//! A procedure that was given is claimed, or let be.
ghost use Rattle.std.specs.Prelude.{◌≡◌, ◌++◌, ◌∷◌, [], length};
ghost use Rattle.hm_model.specs.Claims.{IsClaimedToo};
ghost use Rattle.hm_locks.specs.Book.{NoneClash, is_holding, row_of};
ghost use Rattle.hm_roster.specs.Desk.{HasClaimRoom};
ghost use Rattle.hm_roster.specs.Roster.{Follows, IsGiven, IsSameBut, claims_on, is_of_crash as of_crash};
ghost use Rattle.hm_sched.specs.Queues.{IsWith, members, ready_list};
ghost use Rattle.hm_tied.specs.Tied.{CanGo};

use crate::abilities::is_of_crash;
use crate::desk::Desk;
use hm_names::Pid;
use hm_records::Records;

impl Desk {
    /// Whether a procedure holds what it asks for. No two that hold clash.
    pub fn holds(&self, pid: Pid) -> bool
        ensures holds { result ≡ is_holding (row_of self.now.book.rows pid.0) }
        ensures none_clash { NoneClash self.now.book.rows }
    {
        self.book.holds(pid)
    }

    /// How many are claimed.
    pub fn claims(&self) -> u64
        ensures { result ≡ length (claims_on self.now) }
    {
        self.claimed.len() as u64
    }

    /// A procedure that was given and can go on is claimed, in the room that was made for it. It keeps what it took.
    pub fn claim(&mut self, records: &Records, pid: Pid)
        requires given { IsGiven records.now.past self.old pid.0 }
        requires go { CanGo records.now.past pid.0 }
        requires room { HasClaimRoom self.old }
        ensures follows { Follows records.now.past self.new }
        ensures claimed { IsClaimedToo pid.0 self.old.claimed.items self.new.claimed.items }
        ensures order { self.new.claimed.items ≡ self.old.claimed.items ++ pid.0 ∷ [] }
        ensures numbers { self.new.numbers ≡ self.old.numbers }
        ensures sched { self.new.sched ≡ self.old.sched }
        ensures book { self.new.book ≡ self.old.book }
    {
        let _legal = records.procedures();
        self.claimed.push_reserved(pid.0);
    }

    /// A procedure that was given isn't claimed after all: it gives back what it took, and is ready again, at the back of its list.
    pub fn let_be(&mut self, records: &Records, pid: Pid)
        requires { IsGiven records.now.past self.old pid.0 }
        ensures follows { Follows records.now.past self.new }
        ensures same { IsSameBut self.old self.new }
        ensures back { IsWith self.old.sched.lists (ready_list (of_crash records.now.past pid.0)) (members self.old.sched.lists (ready_list (of_crash records.now.past pid.0)) ++ pid.0 ∷ []) self.new.sched.lists }
    {
        let _legal = records.procedures();
        self.give_back(records, pid);
        let servers = is_of_crash(records, pid);
        self.sched.ready(pid, servers);
    }
}
