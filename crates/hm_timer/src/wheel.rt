ghost use Rattle.std.specs.Prelude.{◌≡◌, ◌+◌, ◌*◌, ◌-◌, ◌<◌, ◌≤◌, ◌++◌, ◌^◌, ℕ, List, [], ◌∷◌, length, map, max, slice_set, filter, not, ◌==◌, vec_len, IfOk, OnOk, OnErr, MatchOption};
ghost use Rattle.std.specs.Vec.{vec_capacity};
ghost use Rattle.hm_lists.specs.Chains.{IsIn, list_at};
ghost use Rattle.hm_lists.specs.Map.{AreApart, IsHeld, IsOut, without};
ghost use Rattle.hm_timer.specs.Timers.{Has, IsSet, IsUnset, due_after, due_by, pid_of, put_in};

use hm_lists::{Lists, Steps};
use hm_names::Pid;
use std::alloc::{AllocError, Global};
use std::marker::{Brand, Model};
use std::sync::ledger::{Blank, Ledger};

/// A wheel of 512 lists: a procedure that is due at a tick is in the list of that tick's number modulo 512. Contracts see the
/// present tick, and the procedures that are set, by due and then by the order of setting.
#[derive(Drop)]
pub struct Wheel {
    lists: Lists,
    dues: Vec<u64>,
    tick: u64,
    // How many are set.
    count: usize,
}

impl Model for Wheel {
    ghost use Rattle.hm_timer.specs.Timers.{View, IsCounted, timers};
    ghost use Rattle.std.specs.Prelude.{length, ◌+◌};
    ghost use Rattle.std.specs.Vec.{vec_capacity};

    ghost Value = { View };

    ghost view = { λ s. record { now = s.tick; set = timers s.tick s.lists.lists; spare = length s.dues.items; room = vec_capacity s.dues + s.lists.room } };

    ghost invariant = { λ s. IsCounted s.tick s.dues.items s.lists s.count };
}

/// Puts a node into a list, with a count of steps of its own. No node was twice in a list or in two.
fn link<L: Ledger>(lists: &mut Lists, list: u32, node: u32, blank: Blank)
    requires name { blank.name ≡ L.name }
    requires parts { blank.parts ≡ L.parts }
    requires some { 1 ≤ L.parts }
    requires list { list < length lists.old.lists }
    requires node { node < lists.old.spare }
    requires out { IsOut lists.old.lists node }
    ensures apart { AreApart lists.old.lists }
    ensures lists { lists.new.lists ≡ slice_set lists.old.lists list (list_at lists.old.lists list ++ node ∷ []) }
    ensures spare { lists.new.spare ≡ lists.old.spare }
    ensures memory { lists.new.room ≡ lists.old.room }
{
    let _in_none = lists.list_of(node);
    let mut steps = Steps::<L>::new(blank);
    lists.push_back(list, node, &mut steps);
}

/// Takes a node out of its list, with a count of steps of its own. No node was twice in a list or in two.
fn unlink<L: Ledger>(lists: &mut Lists, node: u32, blank: Blank)
    requires name { blank.name ≡ L.name }
    requires parts { blank.parts ≡ L.parts }
    requires some { 1 ≤ L.parts }
    requires held { IsHeld lists.old.lists node }
    ensures apart { AreApart lists.old.lists }
    ensures lists { lists.new.lists ≡ map (without node) lists.old.lists }
    ensures spare { lists.new.spare ≡ lists.old.spare }
    ensures memory { lists.new.room ≡ lists.old.room }
{
    let _in_one = lists.list_of(node);
    let mut steps = Steps::<L>::new(blank);
    lists.unlink(node, &mut steps);
}

/// Empties a list.
fn wake<L: Ledger>(lists: &mut Lists, list: u32, woken: &mut Vec<Pid>, steps: &mut Steps<L>)
    requires list { list < length lists.old.lists }
    requires room { vec_len woken.old + length (list_at lists.old.lists list) ≤ vec_capacity woken.old }
    ensures lists { lists.new.lists ≡ slice_set lists.old.lists list [] }
    ensures spare { lists.new.spare ≡ lists.old.spare }
    ensures memory { lists.new.room ≡ lists.old.room }
    ensures woken { woken.new.items ≡ woken.old.items ++ map (λ node. record { 0 = node }) (list_at lists.old.lists list) }
    ensures len { vec_len woken.new ≡ vec_len woken.old + length (list_at lists.old.lists list) }
    ensures capacity { vec_capacity woken.new ≡ vec_capacity woken.old }
    ensures steps { steps.new ≡ steps.old + length (list_at lists.old.lists list) + 1 }
{
    while let Some(node) = lists.pop_front(list, steps) {
        woken.push_reserved(Pid(u64::from(node)));
    }
}

impl Wheel {
    /// A wheel at tick 0 with nothing set.
    pub fn new(alloc: Global) -> Result<Wheel, AllocError>
        ensures now { IfOk result (λ w. w.now ≡ 0) }
        ensures set { IfOk result (λ w. w.set ≡ []) }
        ensures spare { IfOk result (λ w. w.spare ≡ 0) }
    {
        let lists = Lists::new(alloc, 512)?;
        Ok(Wheel {
            lists,
            dues: Vec::new(alloc),
            tick: 0,
            count: 0,
        })
    }

    /// The present tick.
    pub fn now(&self) -> u64
        ensures { result ≡ self.now.now }
    {
        self.tick
    }

    /// Makes room for the procedures below a number.
    pub fn reserve(&mut self, alloc: Global, pids: u32) -> Result<(), AllocError>
        ensures now { self.new.now ≡ self.old.now }
        ensures set { self.new.set ≡ self.old.set }
        ensures ok { OnOk result (self.new.spare ≡ max self.old.spare pids) }
        ensures err { OnErr result (self.new.spare ≡ self.old.spare) }
    {
        self.lists.reserve_nodes(alloc, pids)?;
        let pids = pids as usize;
        if pids > self.dues.len() {
            self.dues.resize(pids, 0)?;
        }
        Ok(())
    }

    /// Sets a procedure that isn't set to a tick that is ahead by 1 to 511.
    pub fn set(&mut self, pid: Pid, due: u64)
        requires room { pid.0 < self.old.spare }
        requires out { IsUnset self.old.set pid.0 }
        requires later { self.old.now < due }
        requires near { due ≤ self.old.now + 511 }
        ensures set { self.new.set ≡ put_in pid.0 due self.old.set }
        ensures now { self.new.now ≡ self.old.now }
        ensures spare { self.new.spare ≡ self.old.spare }
        ensures memory { self.new.room ≡ self.old.room }
    {
        self.dues[pid.0 as usize] = due;
        link::<Brand>(
            &mut self.lists,
            (due % 512) as u32,
            pid.0 as u32,
            Blank::new(1),
        );
        self.count += 1;
    }

    /// Ends what a procedure is set to.
    pub fn cancel(&mut self, pid: Pid)
        requires { IsSet self.old.set pid.0 }
        ensures set { self.new.set ≡ filter (λ timer. not (timer.0 == pid.0)) self.old.set }
        ensures now { self.new.now ≡ self.old.now }
        ensures spare { self.new.spare ≡ self.old.spare }
        ensures memory { self.new.room ≡ self.old.room }
    {
        unlink::<Brand>(&mut self.lists, pid.0 as u32, Blank::new(1));
        self.count -= 1;
    }

    /// How many procedures are set: as many as an advance may wake, so many it needs room for.
    pub fn count(&self) -> usize
        ensures { result ≡ length self.now.set }
    {
        self.count
    }

    /// The tick that a procedure is set to; none where it isn't set.
    pub fn due_of(&self, pid: Pid) -> Option<u64>
        ensures due { MatchOption result (IsUnset self.now.set pid.0) (λ d. Has self.now.set pid.0 d) }
        ensures one { (p d e : ℕ) → Has self.now.set p d → Has self.now.set p e → d ≡ e }
        ensures known { (p d : ℕ) → Has self.now.set p d → p < self.now.spare }
    {
        if pid.0 >= self.dues.len() as u64 {
            return None;
        }
        self.lists.list_of(pid.0 as u32)?;
        Some(self.dues[pid.0 as usize])
    }

    /// Goes on to a tick and puts the procedures that are due after those that were woken, by due and then by the order of
    /// setting. However far it goes, it goes round once at most.
    pub fn advance<L: Ledger>(&mut self, to: u64, woken: &mut Vec<Pid>, steps: &mut Steps<L>)
        requires later { self.old.now ≤ to }
        requires small { to < 2 ^ 63 }
        requires room { vec_len woken.old + length self.old.set ≤ vec_capacity woken.old }
        ensures now { self.new.now ≡ to }
        ensures set { self.new.set ≡ due_after to self.old.set }
        ensures woken { woken.new.items ≡ woken.old.items ++ map pid_of (due_by to self.old.set) }
        ensures capacity { vec_capacity woken.new ≡ vec_capacity woken.old }
        ensures steps { steps.new ≤ steps.old + 512 + 2 * length (due_by to self.old.set) }
        ensures known { (p d : ℕ) → Has self.old.set p d → p < self.old.spare }
        ensures spare { self.new.spare ≡ self.old.spare }
        ensures memory { self.new.room ≡ self.old.room }
    {
        let before = woken.len();
        let turns = (to - self.tick).min(511);
        for _ in 0..turns {
            self.tick += 1;
            wake(&mut self.lists, (self.tick % 512) as u32, woken, steps);
        }
        self.tick = to;
        self.count -= woken.len() - before;
    }
}
