//! One procedure comes into a list or leaves one.
ghost use Rattle.std.specs.Prelude.{◌≡◌, ◌↔◌, ℕ, true, ◌+◌, ◌<◌, ◌≤◌, ◌++◌, ◌∷◌, [], Some, IfSome, MatchOption, slice_set};
ghost use Rattle.hm_lists.specs.Map.{without};
ghost use Rattle.hm_sched.specs.declared.queue.Queue.{Queue};
ghost use Rattle.hm_sched.specs.declared.queue.Queue.TheVariants.{Suspended};
ghost use Rattle.hm_sched.specs.Moves.{Pops};
ghost use Rattle.hm_sched.specs.Queues.{HasRoom, IsSameRoom, IsWith, Stands, StandsIn, StandsNowhere, home, members};

use crate::queue::{Queue, home, is_suspended, number, queue_of};
use crate::sched::Sched;
use hm_lists::Steps;
use std::sync::ledger::{Blank, Ledger};

impl Sched {
    // A procedure that stands nowhere goes to the back of a list.
    pub(crate) fn push<L: Ledger>(&mut self, queue: Queue, pid: u64, steps: &mut Steps<L>)
        requires room { HasRoom self.old queue }
        requires known { pid < self.old.pids }
        requires nowhere { StandsNowhere self.old.lists pid }
        ensures list { IsWith self.old.lists queue (members self.old.lists queue ++ pid ∷ []) self.new.lists }
        ensures room { IsSameRoom self.old self.new }
        ensures steps { steps.new ≡ steps.old + 1 }
    {
        self.lists.push_back(number(queue), pid as u32, steps);
    }

    // The same, with a count of steps of its own.
    pub(crate) fn push_uncounted<L: Ledger>(&mut self, queue: Queue, pid: u64, blank: Blank)
        requires name { blank.name ≡ L.name }
        requires parts { blank.parts ≡ L.parts }
        requires some { 1 ≤ L.parts }
        requires room { HasRoom self.old queue }
        requires known { pid < self.old.pids }
        requires nowhere { StandsNowhere self.old.lists pid }
        ensures list { IsWith self.old.lists queue (members self.old.lists queue ++ pid ∷ []) self.new.lists }
        ensures room { IsSameRoom self.old self.new }
    {
        let mut steps = Steps::<L>::new(blank);
        self.push(queue, pid, &mut steps);
    }

    // The first of a list leaves it.
    pub(crate) fn pop<L: Ledger>(&mut self, queue: Queue, steps: &mut Steps<L>) -> Option<u64>
        requires { HasRoom self.old queue }
        ensures pops { Pops self.old.lists self.new.lists queue result }
        ensures out { IfSome result (λ p. StandsNowhere self.new.lists p × (p < self.old.pids)) }
        ensures room { IsSameRoom self.old self.new }
        ensures steps { steps.new ≡ steps.old + 1 }
    {
        let node = self.lists.pop_front(number(queue), steps)?;
        Some(u64::from(node))
    }

    // A procedure leaves the list that it stands in.
    pub(crate) fn take_out<L: Ledger>(&mut self, pid: u64, steps: &mut Steps<L>)
        requires { Stands self.old.lists pid }
        ensures lists { (k : Queue) → members self.new.lists k ≡ without pid (members self.old.lists k) }
        ensures known { pid < self.old.pids }
        ensures room { IsSameRoom self.old self.new }
        ensures steps { steps.new ≡ steps.old + 1 }
    {
        self.lists.unlink(pid as u32, steps);
    }

    // The list that a procedure stands in.
    pub(crate) fn place(&self, pid: u64) -> Option<Queue>
        requires { pid < self.now.pids }
        ensures place { MatchOption result (StandsNowhere self.now.lists pid) (λ queue. StandsIn self.now.lists queue pid) }
        ensures one { (k other : Queue) → StandsIn self.now.lists k pid → StandsIn self.now.lists other pid → k ≡ other }
    {
        Some(queue_of(self.lists.list_of(pid as u32)?))
    }

    // Whether a procedure's call is out.
    pub(crate) fn is_suspended(&self, pid: u64) -> bool
        requires { pid < self.now.pids }
        ensures out { (result ≡ true) ↔ ((s : ℕ) × StandsIn self.now.lists (Suspended s) pid) }
        ensures one { (k other : Queue) → StandsIn self.now.lists k pid → StandsIn self.now.lists other pid → k ≡ other }
    {
        match self.place(pid) {
            Some(queue) => is_suspended(queue),
            None => false,
        }
    }

    // The ready list of a procedure.
    pub(crate) fn home(&self, pid: u64) -> Queue
        requires { pid < self.now.pids }
        ensures { result ≡ home self.now.said pid }
    {
        home(self.said[pid as usize])
    }

    // From now on this is a procedure's ready list.
    pub(crate) fn say(&mut self, pid: u64, servers: bool)
        requires { pid < self.old.pids }
        ensures said { self.new ≡ record self.old { said = slice_set self.old.said pid (Some servers) } }
    {
        self.said[pid as usize] = Some(servers);
    }
}
