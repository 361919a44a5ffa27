ghost use Rattle.std.specs.Prelude.{◌≡◌, ◌+◌, ◌*◌, ◌<◌, ◌≤◌, ◌++◌, ◌^◌, ℕ, All, [], length, drop, map, max, take, vec_len, IfOk, OnOk, OnErr, MatchOption};
ghost use Rattle.std.specs.Vec.{vec_capacity};
ghost use Rattle.hm_timer.specs.Timers.{Has, IsUnset, due_after, due_by, pid_of, put_in};
ghost use Rattle.hm_clock.specs.Clock.{IsKnown, is_set_in, pid_from};

use hm_lists::Steps;
use hm_names::Pid;
use hm_timer::Wheel;
use std::alloc::{AllocError, Global};
use std::marker::Model;
use std::sync::ledger::Ledger;

/// Timers of procedures whose numbers count from a first one on, and how many ticks the try waits that follows a first failure. A
/// wheel has places of 32 bits, and a log that begins with a base may have given out 2^48 numbers before: so a timer stands by its
/// place from the first number on, and the woken are turned back.
#[derive(Drop)]
pub struct Clock {
    wheel: Wheel,
    low: u64,
    wait: u8,
}

impl Model for Clock {
    ghost use Rattle.std.specs.Prelude.{◌+◌};
    ghost use Rattle.hm_clock.specs.Clock.{ClockView, IsClock, raised};

    ghost Value = { ClockView };

    ghost view = { λ s. record { now = s.wheel.now; wait = s.wait; set = raised s.low s.wheel.set; low = s.low; pids = s.low + s.wheel.spare; room = s.wheel.room } };

    ghost invariant = { λ s. IsClock s.wheel s.low s.wait };
}

// Turns places back into pids, from the one at an index on.
fn turn_back(woken: &mut Vec<Pid>, from: usize, low: u64)
    requires from { from ≤ vec_len woken.old }
    requires fits { All (λ pid. low + pid.0 < 2 ^ 64) (drop from woken.old.items) }
    ensures items { woken.new.items ≡ take from woken.old.items ++ map (pid_from low) (drop from woken.old.items) }
    ensures capacity { vec_capacity woken.new ≡ vec_capacity woken.old }
{
    for at in from..woken.len() {
        let place = woken[at];
        woken[at] = Pid(low + place.0);
    }
}

// The place of a pid from the first one on: no place is so far where it is below that one.
fn place_of(pid: Pid, low: u64) -> Pid
    ensures known { low ≤ pid.0 → pid.0 ≡ low + result.0 }
    ensures below { pid.0 < low → 2 ^ 64 ≤ result.0 + 1 }
{
    Pid(pid.0.checked_sub(low).unwrap_or(u64::MAX))
}

impl Clock {
    /// A clock at tick 0 with nothing set and a wait of no tick, for pids from a first one on.
    pub fn new(alloc: Global, low: u64) -> Result<Clock, AllocError>
        ensures now { IfOk result (λ clock. clock.now ≡ 0) }
        ensures wait { IfOk result (λ clock. clock.wait ≡ 0) }
        ensures set { IfOk result (λ clock. clock.set ≡ []) }
        ensures low { IfOk result (λ clock. clock.low ≡ low) }
        ensures pids { IfOk result (λ clock. clock.pids ≡ low) }
    {
        let wheel = Wheel::new(alloc)?;
        Ok(Clock {
            wheel,
            low,
            wait: 0,
        })
    }

    /// Makes room for the pids below a number. No memory is given for 2^32 of them or more.
    pub fn reserve(&mut self, alloc: Global, pids: u64) -> Result<(), AllocError>
        ensures now { self.new.now ≡ self.old.now }
        ensures wait { self.new.wait ≡ self.old.wait }
        ensures set { self.new.set ≡ self.old.set }
        ensures low { self.new.low ≡ self.old.low }
        ensures ok { OnOk result (self.new.pids ≡ max self.old.pids pids) }
        ensures err { OnErr result (self.new.pids ≡ self.old.pids) }
    {
        if pids <= self.low {
            return Ok(());
        }
        let Ok(places) = u32::try_from(pids - self.low) else {
            return Err(AllocError);
        };
        self.wheel.reserve(alloc, places)
    }

    /// How many ticks the try waits from now on that follows a first failure.
    pub fn set_wait(&mut self, ticks: u8)
        requires { ticks ≤ 7 }
        ensures { self.new ≡ record self.old { wait = ticks } }
    {
        self.wait = ticks;
    }

    /// The present tick.
    pub fn now(&self) -> u64
        ensures now { result ≡ self.now.now }
        ensures small { self.now.now < 2 ^ 63 }
    {
        self.wheel.now()
    }

    /// How many ticks the try waits that follows a first failure.
    pub fn wait(&self) -> u8
        ensures wait { result ≡ self.now.wait }
        ensures short { self.now.wait ≤ 7 }
    {
        self.wait
    }

    /// How many procedures are set: as many as an advance may wake, so many it needs room for.
    pub fn count(&self) -> usize
        ensures { result ≡ length self.now.set }
    {
        self.wheel.count()
    }

    /// The tick that a procedure is set to; none where it isn't set.
    pub fn due_of(&self, pid: Pid) -> Option<u64>
        ensures due { MatchOption result (IsUnset self.now.set pid.0) (λ d. Has self.now.set pid.0 d) }
        ensures one { (p d e : ℕ) → Has self.now.set p d → Has self.now.set p e → d ≡ e }
        ensures known { (p d : ℕ) → Has self.now.set p d → IsKnown self.now p }
    {
        self.wheel.due_of(place_of(pid, self.low))
    }

    /// Whether a procedure is set.
    pub fn is_set(&self, pid: Pid) -> bool
        ensures { result ≡ is_set_in self.now.set pid.0 }
    {
        self.due_of(pid).is_some()
    }

    /// Sets a procedure that isn't set to a tick that is ahead by 1 to 511.
    pub fn set(&mut self, pid: Pid, due: u64)
        requires known { IsKnown self.old pid.0 }
        requires out { IsUnset self.old.set pid.0 }
        requires later { self.old.now < due }
        requires near { due ≤ self.old.now + 511 }
        ensures { self.new ≡ record self.old { set = put_in pid.0 due self.old.set } }
    {
        self.wheel.set(place_of(pid, self.low), due);
    }

    /// Goes on to a tick and puts the procedures that are due after those that were woken, by due and then by the order of
    /// setting. However far it goes, it goes round once at most.
    pub fn advance<L: Ledger>(&mut self, to: u64, woken: &mut Vec<Pid>, steps: &mut Steps<L>)
        requires later { self.old.now ≤ to }
        requires small { to < 2 ^ 63 }
        requires room { vec_len woken.old + length self.old.set ≤ vec_capacity woken.old }
        ensures now { self.new.now ≡ to }
        ensures wait { self.new.wait ≡ self.old.wait }
        ensures set { self.new.set ≡ due_after to self.old.set }
        ensures low { self.new.low ≡ self.old.low }
        ensures pids { self.new.pids ≡ self.old.pids }
        ensures memory { self.new.room ≡ self.old.room }
        ensures woken { woken.new.items ≡ woken.old.items ++ map pid_of (due_by to self.old.set) }
        ensures capacity { vec_capacity woken.new ≡ vec_capacity woken.old }
        ensures steps { steps.new ≤ steps.old + 512 + 2 * length (due_by to self.old.set) }
        ensures known { (p d : ℕ) → Has self.old.set p d → IsKnown self.old p }
    {
        let from = woken.len();
        self.wheel.advance(to, woken, steps);
        turn_back(woken, from, self.low);
    }
}
