//! A worker.
ghost use Rattle.std.specs.Prelude.{◌≡◌, true, Err, IfErr, OnOk};
ghost use Rattle.hm_gate.specs.Ready.{IsReady};
ghost use Rattle.hm_workers.specs.Ends.{EndIs, IsFlushed, IsFree, IsSamePart, IsServed, Knows, MayServe, Owes, TaskIs};
ghost use Rattle.hm_workers.specs.Ran.{Adds, RanFor, RanOnce};
ghost use Rattle.hm_sheet.specs.Words.{risen};

use crate::door::Door;
use crate::ended::{WorkEnd, end_of};
use crate::flushing::flush;
use crate::serves::Serves;
use crate::stays::{bring, finish, put_back, start};
use hm_data::StepOut;
use hm_gate::Seat;
use hm_hall::{Taken, Task};
use hm_lend::Hall;
use std::alloc::Global;
use std::sync::Wait;

// Gives what the handler answered. Where that fails, what was taken is put back.
fn hand_over<H: Hall, G: Door<H>, R: Wait>(
    rt: &R,
    alloc: Global,
    gate: &G,
    seat: &mut Seat<H>,
    taken: Taken,
    out: StepOut,
) -> Result<(), WorkEnd>
    requires ready { IsReady (G.table gate.now) seat.old }
    requires owes { Owes seat.old.view taken.pid.0 }
    requires answer { IsServed H.editions_in seat.old.view taken.was out }
    ensures ready { IsReady (G.table gate.now) seat.new }
    ensures free { IsFree seat.new.view }
    ensures part { IsSamePart seat.old.view seat.new.view }
    ensures mine { Adds H.editions_in 1 seat.old.view seat.new.view }
    ensures end { IfErr result (EndIs H.rests seat.new.view) }
{
    match finish(rt, alloc, gate, seat, taken, out) {
        Ok(()) => Ok(()),
        Err((back, fault)) => {
            put_back(rt, gate, seat, back);
            Err(end_of(fault))
        }
    }
}

// Puts back what there is no memory to serve.
fn give_up<H: Hall, G: Door<H>, R: Wait>(
    rt: &R,
    gate: &G,
    seat: &mut Seat<H>,
    taken: Taken,
) -> WorkEnd
    requires ready { IsReady (G.table gate.now) seat.old }
    requires owes { Owes seat.old.view taken.pid.0 }
    ensures ready { IsReady (G.table gate.now) seat.new }
    ensures free { IsFree seat.new.view }
    ensures part { IsSamePart seat.old.view seat.new.view }
    ensures mine { Adds H.editions_in 0 seat.old.view seat.new.view }
    ensures end { EndIs H.rests seat.new.view result }
{
    put_back(rt, gate, seat, taken);
    WorkEnd::Memory
}

// Serves what was taken once, with nothing held, and gives the answer. Where there is none, what was taken is put back.
fn run<H: Hall, S: Serves, G: Door<H>, R: Wait>(
    rt: &R,
    alloc: Global,
    gate: &G,
    seat: &mut Seat<H>,
    hands: &mut S,
    taken: Taken,
) -> Result<(), WorkEnd>
    requires ready { IsReady (G.table gate.now) seat.old }
    requires owes { Owes seat.old.view taken.pid.0 }
    requires may { MayServe H.editions_in seat.old.view taken.was }
    requires knows { Knows H.editions_in seat.old.view (S.editions hands.old) }
    ensures ready { IsReady (G.table gate.now) seat.new }
    ensures free { IsFree seat.new.view }
    ensures part { IsSamePart seat.old.view seat.new.view }
    ensures editions { S.editions hands.new ≡ S.editions hands.old }
    ensures ran { RanOnce (S.editions hands.old) seat.old.view.mine seat.new.view.mine (S.runs hands.old) (S.runs hands.new) }
    ensures once { OnOk result (S.runs hands.new ≡ risen (S.runs hands.old)) }
    ensures end { IfErr result (EndIs H.rests seat.new.view) }
{
    match hands.serve(alloc, &taken.was) {
        Ok(out) => hand_over(rt, alloc, gate, seat, taken, out),
        Err(_) => Err(give_up(rt, gate, seat, taken)),
    }
}

// Carries a call or a report.
fn carry<H: Hall, G: Door<H>, R: Wait>(
    rt: &R,
    alloc: Global,
    gate: &G,
    seat: &mut Seat<H>,
) -> Result<(), WorkEnd>
    requires ready { IsReady (G.table gate.now) seat.old }
    requires free { IsFree seat.old.view }
    ensures ready { IsReady (G.table gate.now) seat.new }
    ensures free { IsFree seat.new.view }
    ensures part { IsSamePart seat.old.view seat.new.view }
    ensures mine { Adds H.editions_in 0 seat.old.view seat.new.view }
    ensures end { IfErr result (EndIs H.rests seat.new.view) }
{
    match bring(rt, alloc, gate, seat) {
        Ok(_) => Ok(()),
        Err(fault) => Err(end_of(fault)),
    }
}

// Writes what isn't durable.
fn write<H: Hall, G: Door<H>, R: Wait>(rt: &R, gate: &G, seat: &mut Seat<H>) -> Result<(), WorkEnd>
    requires ready { IsReady (G.table gate.now) seat.old }
    requires free { IsFree seat.old.view }
    ensures ready { IsReady (G.table gate.now) seat.new }
    ensures free { IsFree seat.new.view }
    ensures part { IsSamePart seat.old.view seat.new.view }
    ensures mine { Adds H.editions_in 0 seat.old.view seat.new.view }
    ensures flushed { OnOk result (IsFlushed H.shown H.hall seat.old.view.front seat.new.view) }
    ensures end { IfErr result (EndIs H.rests seat.new.view) }
{
    match flush(rt, gate, seat) {
        Ok(()) => Ok(()),
        Err(fault) => Err(end_of(fault)),
    }
}

// Does a task, and wakes those who wait. Where somebody else is at work it waits while the word of changes is `seen`, and
// where nothing is left it ends.
fn perform<H: Hall, S: Serves, G: Door<H>, R: Wait>(
    rt: &R,
    alloc: Global,
    gate: &G,
    seat: &mut Seat<H>,
    hands: &mut S,
    task: Task,
    seen: u64,
) -> Result<(), WorkEnd>
    requires ready { IsReady (G.table gate.now) seat.old }
    requires task { TaskIs H.editions_in H.rests seat.old.view task }
    requires knows { Knows H.editions_in seat.old.view (S.editions hands.old) }
    ensures ready { IsReady (G.table gate.now) seat.new }
    ensures free { IsFree seat.new.view }
    ensures part { IsSamePart seat.old.view seat.new.view }
    ensures editions { S.editions hands.new ≡ S.editions hands.old }
    ensures ran { RanOnce (S.editions hands.old) seat.old.view.mine seat.new.view.mine (S.runs hands.old) (S.runs hands.new) }
    ensures flushed { task ≡ Task.Flush → OnOk result (IsFlushed H.shown H.hall seat.old.view.front seat.new.view) }
    ensures end { IfErr result (EndIs H.rests seat.new.view) }
{
    match task {
        Task::Run(taken) => {
            let done = run(rt, alloc, gate, seat, hands, taken);
            gate.wake_all();
            done
        }
        Task::Carry => {
            let done = carry(rt, alloc, gate, seat);
            gate.wake_all();
            done
        }
        Task::Flush => {
            let done = write(rt, gate, seat);
            gate.wake_all();
            done
        }
        Task::Busy => {
            gate.park(rt, seat, seen);
            Ok(())
        }
        Task::Idle => Err(WorkEnd::Idle),
    }
}

// Takes a task and does it.
fn turn<H: Hall, S: Serves, G: Door<H>, R: Wait>(
    rt: &R,
    alloc: Global,
    gate: &G,
    seat: &mut Seat<H>,
    hands: &mut S,
) -> Result<(), WorkEnd>
    requires ready { IsReady (G.table gate.now) seat.old }
    requires free { IsFree seat.old.view }
    requires knows { Knows H.editions_in seat.old.view (S.editions hands.old) }
    ensures ready { IsReady (G.table gate.now) seat.new }
    ensures free { IsFree seat.new.view }
    ensures part { IsSamePart seat.old.view seat.new.view }
    ensures editions { S.editions hands.new ≡ S.editions hands.old }
    ensures ran { RanOnce (S.editions hands.old) seat.old.view.mine seat.new.view.mine (S.runs hands.old) (S.runs hands.new) }
    ensures end { IfErr result (EndIs H.rests seat.new.view) }
    ensures shut { seat.old.view.stopped ≡ true → result ≡ Err WorkEnd.Halted }
{
    let seen = gate.changes();
    match start(rt, alloc, gate, seat) {
        Ok(task) => perform(rt, alloc, gate, seat, hands, task, seen),
        Err(fault) => Err(end_of(fault)),
    }
}

/// Does tasks until none is left, the hall is stopped, or memory runs out. Each stay inside the gate is one call of the
/// hall; what is taken is served between two stays, and the log is written between two stays.
#[tactic(auto, using(crate::proofs::Running::ran_on))]
pub fn work<H: Hall, S: Serves, G: Door<H>, R: Wait>(
    rt: &R,
    alloc: Global,
    gate: &G,
    seat: &mut Seat<H>,
    hands: &mut S,
) -> WorkEnd
    requires ready { IsReady (G.table gate.now) seat.old }
    requires free { IsFree seat.old.view }
    requires knows { Knows H.editions_in seat.old.view (S.editions hands.old) }
    ensures ready { IsReady (G.table gate.now) seat.new }
    ensures free { IsFree seat.new.view }
    ensures part { IsSamePart seat.old.view seat.new.view }
    ensures editions { S.editions hands.new ≡ S.editions hands.old }
    ensures ran { RanFor (S.editions hands.old) seat.old.view.mine seat.new.view.mine (S.runs hands.old) (S.runs hands.new) }
    ensures end { EndIs H.rests seat.new.view result }
    ensures shut { seat.old.view.stopped ≡ true → result ≡ WorkEnd.Halted }
{
    for _ in rt.forever() {
        match turn(rt, alloc, gate, seat, hands) {
            Ok(()) => {}
            Err(end) => return end,
        }
    }
    unreachable!()
}
