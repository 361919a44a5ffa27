//! Room for more procedures and claims.
ghost use Rattle.std.specs.Prelude.{◌≡◌, ◌+◌, ◌<◌, ◌≤◌, OnOk};
ghost use Rattle.hm_model.specs.Journal.{Past};
ghost use Rattle.hm_model.specs.Tree.{made};
ghost use Rattle.hm_roster.specs.Desk.{HasClaimRoom, IsRoomier};
ghost use Rattle.hm_roster.specs.Roster.{Follows};

use crate::desk::Desk;
use hm_records::Records;
use std::alloc::{AllocError, Global};

impl Desk {
    // Makes room for the procedures whose numbers are below this one.
    pub(crate) fn make_room(&mut self, alloc: Global, count: u64) -> Result<(), AllocError>
        ensures room { OnOk result (count ≤ self.new.sched.pids) }
        ensures roomier { IsRoomier self.old self.new }
        ensures numbers { self.new.numbers ≡ self.old.numbers }
        ensures servers { self.new.sched.servers ≡ self.old.sched.servers }
    {
        let Ok(pids) = u32::try_from(count) else {
            return Err(AllocError);
        };
        self.sched.reserve(alloc, pids, 0)
    }

    /// Makes room for so many procedures more.
    pub fn reserve(&mut self, alloc: Global, records: &Records, more: u64) -> Result<(), AllocError>
        requires { Follows records.now.past self.old }
        ensures follows { Follows records.now.past self.new }
        ensures room { OnOk result (made records.now.past + more < self.new.sched.pids) }
        ensures roomier { IsRoomier self.old self.new }
        ensures numbers { self.new.numbers ≡ self.old.numbers }
        ensures servers { self.new.sched.servers ≡ self.old.sched.servers }
    {
        let last = records.procedures().last_pid();
        let Some(count) = more.checked_add(last + 1) else {
            return Err(AllocError);
        };
        self.make_room(alloc, count)
    }

    /// Makes room for one claim more.
    pub fn reserve_claim(&mut self, _alloc: Global) -> Result<(), AllocError>
        ensures follows { (past : Past) → Follows past self.old → Follows past self.new }
        ensures room { OnOk result (HasClaimRoom self.new) }
        ensures claimed { self.new.claimed.items ≡ self.old.claimed.items }
        ensures numbers { self.new.numbers ≡ self.old.numbers }
        ensures sched { self.new.sched ≡ self.old.sched }
        ensures book { self.new.book ≡ self.old.book }
    {
        self.claimed.reserve(1)
    }
}
