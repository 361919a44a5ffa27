//! The numbers of the lists for calls to servers.
ghost use Rattle.std.specs.Prelude.{◌≡◌, ◌+◌, ◌<◌, ◌≤◌, IfOk, OnOk, OnErr, Some, true, length, if◌then◌else◌};
ghost use Rattle.std.specs.Ordering.{is_eq};
ghost use Rattle.hm_model.specs.Fleet.{came_up};
ghost use Rattle.hm_names.specs.Order.{server_cmp};
ghost use Rattle.hm_names.specs.Server.{Server};
ghost use Rattle.hm_roster.specs.Desk.{IsNumbered, IsRoomier, NumbersStay, given_number};
ghost use Rattle.hm_roster.specs.Roster.{Follows, HasLists};

use crate::desk::Desk;
use hm_names::{Copied, ServerName};
use hm_places::servers_follow;
use hm_records::Records;
use std::alloc::{AllocError, Global};

impl Desk {
    // Makes room for one server more that gets a number, and for the list of this number.
    fn make_list(&mut self, alloc: Global, number: u32) -> Result<(), AllocError>
        ensures spare { OnOk result (1 ≤ self.new.numbers.spare) }
        ensures list { OnOk result (number < self.new.sched.servers) }
        ensures pairs { self.new.numbers.pairs ≡ self.old.numbers.pairs }
        ensures roomier { IsRoomier self.old self.new }
        ensures pids { self.new.sched.pids ≡ self.old.sched.pids }
    {
        let Some(count) = number.checked_add(1) else {
            return Err(AllocError);
        };
        self.numbers.reserve(alloc, 1)?;
        self.sched.reserve(alloc, 0, count)
    }

    // Gives a server a number.
    fn put_number(
        &mut self,
        alloc: Global,
        server: &ServerName,
        number: u32,
    ) -> Result<(), AllocError>
        ensures put { OnOk result ((other : Server) → given_number self.new other ≡ (if is_eq (server_cmp server.now other) then Some number else given_number self.old other)) }
        ensures list { OnOk result (number < self.new.sched.servers) }
        ensures err { OnErr result (self.new.numbers.pairs ≡ self.old.numbers.pairs) }
        ensures roomier { IsRoomier self.old self.new }
        ensures pids { self.new.sched.pids ≡ self.old.sched.pids }
    {
        self.make_list(alloc, number)?;
        let server = server.copy(alloc)?;
        self.numbers.set(server, number);
        Ok(())
    }

    // The next number: one after those of so many servers, since the first list is for calls to the storage.
    fn next_number(&self) -> Result<u32, AllocError>
        ensures { IfOk result (λ number. number ≡ length self.now.numbers.pairs + 1) }
    {
        let Ok(count) = u32::try_from(self.numbers.view().len()) else {
            return Err(AllocError);
        };
        count.checked_add(1).ok_or(AllocError)
    }

    // Gives a server the next number, unless it has one.
    pub(crate) fn number_next(
        &mut self,
        alloc: Global,
        server: &ServerName,
    ) -> Result<(), AllocError>
        requires { HasLists self.old }
        ensures numbered { OnOk result (IsNumbered self.new server.now) }
        ensures stay { NumbersStay self.old self.new }
        ensures below { HasLists self.new }
        ensures roomier { IsRoomier self.old self.new }
        ensures pids { self.new.sched.pids ≡ self.old.sched.pids }
    {
        if self.numbers.get(server).is_some() {
            return Ok(());
        }
        let number = self.next_number()?;
        self.put_number(alloc, server, number)
    }

    // The number for a server that was given none: the next, or where it may have come up that of the storage, which it had so far.
    fn number_for(&self, records: &Records, server: &ServerName) -> Result<u32, AllocError>
        ensures { IfOk result (λ number. came_up records.now.past server.now ≡ true → number ≡ 0) }
    {
        let _legal = records.procedures();
        servers_follow();
        if records.servers().has_newer(server) {
            return Ok(0);
        }
        self.next_number()
    }

    /// Gives a server that never came up the number of a list for its calls, unless it has one.
    pub fn number_server(
        &mut self,
        alloc: Global,
        records: &Records,
        server: &ServerName,
    ) -> Result<(), AllocError>
        requires { Follows records.now.past self.old }
        ensures follows { Follows records.now.past self.new }
        ensures numbered { OnOk result (IsNumbered self.new server.now) }
        ensures stay { NumbersStay self.old self.new }
        ensures roomier { IsRoomier self.old self.new }
        ensures pids { self.new.sched.pids ≡ self.old.sched.pids }
    {
        let _legal = records.procedures();
        if self.numbers.get(server).is_some() {
            return Ok(());
        }
        let number = self.number_for(records, server)?;
        self.put_number(alloc, server, number)
    }

    // Gives each server that ever came up a number.
    pub(crate) fn number_all(&mut self, alloc: Global, records: &Records) -> Result<(), AllocError>
        requires { HasLists self.old }
        ensures numbered { OnOk result ((server : Server) → came_up records.now.past server ≡ true → IsNumbered self.new server) }
        ensures below { HasLists self.new }
        ensures roomier { IsRoomier self.old self.new }
        ensures pids { self.new.sched.pids ≡ self.old.sched.pids }
    {
        let servers = records.servers().all();
        for (server, _) in servers.iter() {
            self.number_next(alloc, server)?;
        }
        Ok(())
    }
}
