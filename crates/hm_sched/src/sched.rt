//! Where procedures stand, and who comes next.
ghost use Rattle.std.specs.Prelude.{◌≡◌, ℕ, ◌+◌, ◌*◌, ◌<◌, ◌≤◌, ◌++◌, ◌∷◌, ◌↔◌, [], Some, None, true, false, max, length, IfNone, IfOk, IfSome, OnErr, OnOk, slice_set};
ghost use Rattle.std.specs.Option.{option_map};
ghost use Rattle.hm_lists.specs.Map.{without};
ghost use Rattle.hm_locks.specs.Book.{AreChanged, IsEnlisted, holding, row_of};
ghost use Rattle.hm_sched.specs.declared.queue.Queue.{Queue};
ghost use Rattle.hm_sched.specs.declared.queue.Queue.TheVariants.{Held, Suspended, Waits};
ghost use Rattle.hm_sched.specs.Effects.{Joins, Leaves, Passes, Wakes, WakesOne};
ghost use Rattle.hm_sched.specs.Moves.{AreWoken, IsNext, IsNextOf, IsWoken, pid_in};
ghost use Rattle.hm_sched.specs.Queues.{HasRoom, IsReady, IsSameRoom, IsWith, Stands, StandsIn, StandsNowhere, is_ready, members, ready_count, ready_list, said_of};

use crate::queue::{Queue, ready_list};
use hm_lists::{Lists, Steps};
use hm_locks::LockBook;
use hm_names::Pid;
use std::alloc::{AllocError, Global};
use std::marker::{Brand, Model};
use std::sync::ledger::{Blank, Ledger};

// How many pids and servers there may be: each has a list, and the numbers of all lists fit a u32.
const MOST: u32 = 0x7FFF_FFFE;

/// Where procedures stand. Contracts see the lists, and what `ready` said last of each procedure.
#[derive(Drop)]
pub struct Sched {
    pub(crate) lists: Lists,
    pub(crate) said: Vec<Option<bool>>,
    pub(crate) servers: u32,
}

impl Model for Sched {
    ghost use Rattle.std.specs.Prelude.{length, ◌+◌, vec_capacity};
    ghost use Rattle.hm_sched.specs.Queues.{IsKept, Stations};

    ghost Value = { Stations };

    ghost view = { λ s. record { lists = s.lists.lists; said = s.said.items; pids = length s.said.items; servers = s.servers; room = vec_capacity s.said + s.lists.room } };

    ghost invariant = { λ s. IsKept s.lists (length s.said.items) s.servers };
}

impl Sched {
    /// Nobody stands anywhere.
    pub fn new(alloc: Global) -> Result<Sched, AllocError>
        ensures lists { IfOk result (λ s. (k : Queue) → members s.lists k ≡ []) }
        ensures said { IfOk result (λ s. s.said ≡ []) }
        ensures pids { IfOk result (λ s. s.pids ≡ 0) }
        ensures servers { IfOk result (λ s. s.servers ≡ 0) }
    {
        Ok(Sched {
            lists: Lists::new(alloc, 3)?,
            said: Vec::new(alloc),
            servers: 0,
        })
    }

    /// Makes room for the pids and for the numbers of servers below these. No other call takes memory.
    pub fn reserve(&mut self, alloc: Global, pids: u32, servers: u32) -> Result<(), AllocError>
        ensures lists { (k : Queue) → members self.new.lists k ≡ members self.old.lists k }
        ensures said { (p : ℕ) → said_of self.new.said p ≡ said_of self.old.said p }
        ensures pids { OnOk result (self.new.pids ≡ max self.old.pids pids) }
        ensures servers { OnOk result (self.new.servers ≡ max self.old.servers servers) }
        ensures same_pids { OnErr result (self.new.pids ≡ self.old.pids) }
        ensures same_servers { OnErr result (self.new.servers ≡ self.old.servers) }
    {
        let most = pids.max(servers);
        if most > MOST {
            return Err(AllocError);
        }
        self.lists.reserve_lists(alloc, 3 + most + most)?;
        self.lists.reserve_nodes(alloc, pids)?;
        let count = self.said.len().max(pids as usize);
        self.said.resize(count, None)?;
        self.servers = self.servers.max(servers);
        Ok(())
    }

    /// Whether a procedure stands in some list.
    pub fn stands(&self, pid: Pid) -> bool
        requires { pid.0 < self.now.pids }
        ensures { (result ≡ true) ↔ Stands self.now.lists pid.0 }
    {
        self.place(pid.0).is_some()
    }

    /// A procedure that stands nowhere becomes ready, at the back; `servers` is true of one that belongs to a server's crash.
    pub fn ready(&mut self, pid: Pid, servers: bool)
        requires known { pid.0 < self.old.pids }
        requires nowhere { StandsNowhere self.old.lists pid.0 }
        ensures list { IsWith self.old.lists (ready_list servers) (members self.old.lists (ready_list servers) ++ pid.0 ∷ []) self.new.lists }
        ensures joins { Joins self.old.lists self.new.lists (ready_list servers) pid.0 }
        ensures said { self.new.said ≡ slice_set self.old.said pid.0 (Some servers) }
        ensures pids { self.new.pids ≡ self.old.pids }
        ensures servers { self.new.servers ≡ self.old.servers }
        ensures room { self.new.room ≡ self.old.room }
    {
        self.say(pid.0, servers);
        self.push_uncounted::<Brand>(ready_list(servers), pid.0, Blank::new(1));
    }

    // A procedure that stands nowhere joins a list.
    fn join<L: Ledger>(&mut self, queue: Queue, pid: u64, steps: &mut Steps<L>)
        requires room { HasRoom self.old queue }
        requires known { pid < self.old.pids }
        requires nowhere { StandsNowhere self.old.lists pid }
        ensures list { IsWith self.old.lists queue (members self.old.lists queue ++ pid ∷ []) self.new.lists }
        ensures joins { Joins self.old.lists self.new.lists queue pid }
        ensures room { IsSameRoom self.old self.new }
        ensures steps { steps.new ≡ steps.old + 1 }
    {
        self.push(queue, pid, steps);
    }

    /// A procedure that stands nowhere waits for the answer of its call to a server.
    pub fn suspend<L: Ledger>(&mut self, pid: Pid, server: u32, steps: &mut Steps<L>)
        requires known { pid.0 < self.old.pids }
        requires server { server < self.old.servers }
        requires nowhere { StandsNowhere self.old.lists pid.0 }
        ensures list { IsWith self.old.lists (Suspended server) (members self.old.lists (Suspended server) ++ pid.0 ∷ []) self.new.lists }
        ensures joins { Joins self.old.lists self.new.lists (Suspended server) pid.0 }
        ensures room { IsSameRoom self.old self.new }
        ensures steps { steps.new ≤ steps.old + 1 }
    {
        self.join(Queue::Suspended(server), pid.0, steps);
    }

    /// A procedure that stands nowhere waits for a live server.
    pub fn hold<L: Ledger>(&mut self, pid: Pid, steps: &mut Steps<L>)
        requires known { pid.0 < self.old.pids }
        requires nowhere { StandsNowhere self.old.lists pid.0 }
        ensures list { IsWith self.old.lists Held (members self.old.lists Held ++ pid.0 ∷ []) self.new.lists }
        ensures joins { Joins self.old.lists self.new.lists Held pid.0 }
        ensures room { IsSameRoom self.old self.new }
        ensures steps { steps.new ≤ steps.old + 1 }
    {
        self.join(Queue::Held, pid.0, steps);
    }

    /// A procedure leaves the list that it stands in, if it stands in one.
    pub fn leave<L: Ledger>(&mut self, pid: Pid, steps: &mut Steps<L>)
        requires { pid.0 < self.old.pids }
        ensures leaves { Leaves self.old.lists self.new.lists pid.0 }
        ensures lists { (k : Queue) → members self.new.lists k ≡ without pid.0 (members self.old.lists k) }
        ensures room { IsSameRoom self.old self.new }
        ensures steps { steps.new ≤ steps.old + 1 }
    {
        if self.place(pid.0).is_some() {
            self.take_out(pid.0, steps);
        }
    }

    /// A procedure whose call is out becomes ready; any other stays where it is.
    pub fn wake<L: Ledger>(&mut self, pid: Pid, steps: &mut Steps<L>)
        requires { pid.0 < self.old.pids }
        ensures wakes { WakesOne self.old.lists self.new.lists pid.0 }
        ensures order { IsWoken self.old.said self.old.lists self.new.lists pid.0 }
        ensures room { IsSameRoom self.old self.new }
        ensures steps { steps.new ≤ steps.old + 2 }
    {
        if self.is_suspended(pid.0) {
            self.take_out(pid.0, steps);
            let home = self.home(pid.0);
            self.push(home, pid.0, steps);
        }
    }

    // All of a list become ready, in order.
    fn wake_list<L: Ledger>(&mut self, queue: Queue, steps: &mut Steps<L>)
        requires room { HasRoom self.old queue }
        requires unready { is_ready queue ≡ false }
        ensures wakes { Wakes self.old.lists self.new.lists queue }
        ensures order { AreWoken self.old.said self.old.lists self.new.lists queue }
        ensures room { IsSameRoom self.old self.new }
        ensures steps { steps.new ≤ steps.old + 2 * length (members self.old.lists queue) + 1 }
    {
        while let Some(pid) = self.pop(queue, steps) {
            let home = self.home(pid);
            self.push(home, pid, steps);
        }
    }

    /// Those that waited for what a procedure locks become ready.
    pub fn freed<L: Ledger>(&mut self, pid: Pid, steps: &mut Steps<L>)
        requires { pid.0 < self.old.pids }
        ensures wakes { Wakes self.old.lists self.new.lists (Waits pid.0) }
        ensures order { AreWoken self.old.said self.old.lists self.new.lists (Waits pid.0) }
        ensures room { IsSameRoom self.old self.new }
        ensures steps { steps.new ≤ steps.old + 2 * length (members self.old.lists (Waits pid.0)) + 1 }
    {
        self.wake_list(Queue::Waits(pid.0), steps);
    }

    /// Those whose call went to a server become ready.
    pub fn wake_all<L: Ledger>(&mut self, server: u32, steps: &mut Steps<L>)
        requires { server < self.old.servers }
        ensures wakes { Wakes self.old.lists self.new.lists (Suspended server) }
        ensures order { AreWoken self.old.said self.old.lists self.new.lists (Suspended server) }
        ensures room { IsSameRoom self.old self.new }
        ensures steps { steps.new ≤ steps.old + 2 * length (members self.old.lists (Suspended server)) + 1 }
    {
        self.wake_list(Queue::Suspended(server), steps);
    }

    /// Those that waited for a live server become ready.
    pub fn wake_held<L: Ledger>(&mut self, steps: &mut Steps<L>)
        ensures wakes { Wakes self.old.lists self.new.lists Held }
        ensures order { AreWoken self.old.said self.old.lists self.new.lists Held }
        ensures room { IsSameRoom self.old self.new }
        ensures steps { steps.new ≤ steps.old + 2 * length (members self.old.lists Held) + 1 }
    {
        self.wake_list(Queue::Held, steps);
    }

    // The first of one list that conflicts with no holder; those in front of it wait for the first that they conflict with.
    fn next_of<L: Ledger>(
        &mut self,
        queue: Queue,
        book: &LockBook,
        steps: &mut Steps<L>,
    ) -> Option<u64>
        requires ready { is_ready queue ≡ true }
        requires enlisted { (q : ℕ) → StandsIn self.old.lists queue q → IsEnlisted book.now.rows q }
        requires known { (q : ℕ) → IsEnlisted book.now.rows q → q < self.old.pids }
        ensures next { IsNextOf book.now.rows self.old.lists self.new.lists queue result steps.old steps.new }
        ensures out { IfSome result (λ p. StandsNowhere self.new.lists p) }
        ensures room { IsSameRoom self.old self.new }
    {
        while let Some(pid) = self.pop(queue, steps) {
            match book.first_conflict(Pid(pid), steps) {
                Some(holder) => self.push(Queue::Waits(holder.0), pid, steps),
                None => return Some(pid),
            }
        }
        None
    }

    // The first of both lists.
    fn next_ready<L: Ledger>(&mut self, book: &LockBook, steps: &mut Steps<L>) -> Option<u64>
        requires enlisted { (q : ℕ) → IsReady self.old.lists q → IsEnlisted book.now.rows q }
        requires known { (q : ℕ) → IsEnlisted book.now.rows q → q < self.old.pids }
        ensures next { IsNext book.now.rows self.old.lists self.new.lists result steps.old steps.new }
        ensures passes { Passes book.now.rows self.old.lists self.new.lists result }
        ensures fewer { IfSome result (λ _. ready_count self.new.lists < ready_count self.old.lists) }
        ensures room { IsSameRoom self.old self.new }
    {
        match self.next_of(Queue::Servers, book, steps) {
            Some(pid) => Some(pid),
            None => self.next_of(Queue::Tables, book, steps),
        }
    }

    /// The first ready procedure, servers' before others, that conflicts with no holder: it takes its locks and is given.
    /// Those in front of it wait for the first holder that they conflict with. None exactly where all that are ready conflict.
    pub fn next<L: Ledger>(&mut self, book: &mut LockBook, steps: &mut Steps<L>) -> Option<Pid>
        requires enlisted { (q : ℕ) → IsReady self.old.lists q → IsEnlisted book.old.rows q }
        requires known { (q : ℕ) → IsEnlisted book.old.rows q → q < self.old.pids }
        ensures next { IsNext book.old.rows self.old.lists self.new.lists (pid_in result) steps.old steps.new }
        ensures passes { Passes book.old.rows self.old.lists self.new.lists (pid_in result) }
        ensures fewer { IfSome result (λ _. ready_count self.new.lists < ready_count self.old.lists) }
        ensures none { IfNone result (book.new ≡ book.old) }
        ensures some { IfSome result (λ p. AreChanged book.old.rows p.0 (option_map (holding true) (row_of book.old.rows p.0)) book.new.rows) }
        ensures book_room { book.new.room ≡ book.old.room }
        ensures room { IsSameRoom self.old self.new }
    {
        let pid = Pid(self.next_ready(book, steps)?);
        book.take(pid);
        Some(pid)
    }
}
