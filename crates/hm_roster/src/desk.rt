//! The desk.
ghost use Rattle.std.specs.Prelude.{◌≡◌, ◌<◌, IfOk, []};
ghost use Rattle.std.specs.Option.{option_copied};
ghost use Rattle.hm_model.specs.Tree.{node_of};
ghost use Rattle.hm_roster.specs.Roster.{HasLists, number_on};
ghost use Rattle.hm_sched.specs.Queues.{members};
ghost use Rattle.hm_sched.specs.declared.queue.Queue.{Queue};
ghost use Rattle.hm_tied.specs.Tied.{called_in};

use hm_index::Index;
use hm_judge::called_by;
use hm_locks::LockBook;
use hm_names::{Pid, ServerName};
use hm_records::Records;
use hm_sched::Sched;
use std::alloc::{AllocError, Global};

/// Who is claimed, who stands in which list, and who is enlisted with what it asks for.
#[derive(Drop)]
pub struct Desk {
    pub(crate) claimed: Vec<u64>,
    pub(crate) sched: Sched,
    pub(crate) book: LockBook,
    // The number of the list for the calls to each server. The first list is for calls to the storage.
    pub(crate) numbers: Index<ServerName, u32>,
}

impl Desk {
    /// Nobody is claimed, stands anywhere, or is enlisted; no server has a number.
    pub fn new(alloc: Global) -> Result<Desk, AllocError>
        ensures claimed { IfOk result (λ desk. desk.claimed.items ≡ []) }
        ensures lists { IfOk result (λ desk. (k : Queue) → members desk.sched.lists k ≡ []) }
        ensures rows { IfOk result (λ desk. desk.book.rows ≡ []) }
        ensures below { IfOk result HasLists }
    {
        let mut sched = Sched::new(alloc)?;
        sched.reserve(alloc, 0, 1)?;
        Ok(Desk {
            claimed: Vec::new(alloc),
            sched,
            book: LockBook::new(alloc)?,
            numbers: Index::new(alloc)?,
        })
    }

    // The number of a server's list; a server that never came up has that of the storage.
    pub(crate) fn number(&self, server: Option<&ServerName>) -> u32
        requires { HasLists self.now }
        ensures number { result ≡ number_on self.now (option_copied server.entry) }
        ensures below { result < self.now.sched.servers }
    {
        let Some(server) = server else {
            return 0;
        };
        match self.numbers.get(server) {
            Some(number) => *number,
            None => 0,
        }
    }

    // The number of the list for the calls of a procedure.
    pub(crate) fn number_called(&self, records: &Records, pid: Pid) -> u32
        requires { HasLists self.now }
        ensures number { result ≡ number_on self.now (called_in (node_of records.now.past pid.0)) }
        ensures below { result < self.now.sched.servers }
    {
        match records.procedures().find(pid) {
            Some(found) => self.number(called_by(&found.args)),
            None => self.number(None),
        }
    }
}
