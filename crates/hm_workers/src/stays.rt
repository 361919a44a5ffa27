//! The stays of a worker: each is one call of the hall, and no handler runs in it.
ghost use Rattle.std.specs.Prelude.{◌≡◌, true, Err, MatchResult};
ghost use Rattle.hm_gate.specs.Ready.{IsReady};
ghost use Rattle.hm_workers.specs.Ends.{IsFree, IsSamePart, IsServed, IsShut, Owes, StopsBy, TaskIs};
ghost use Rattle.hm_workers.specs.Ran.{Adds};

use crate::door::Door;
use hm_data::StepOut;
use hm_gate::Seat;
use hm_hall::{Given, HallFault, Taken, Task};
use hm_lend::Hall;
use std::alloc::Global;
use std::sync::Wait;

/// One stay, to take a task.
pub(crate) fn start<H: Hall, G: Door<H>, R: Wait>(
    rt: &R,
    alloc: Global,
    gate: &G,
    seat: &mut Seat<H>,
) -> Result<Task, HallFault>
    requires ready { IsReady (G.table gate.now) seat.old }
    requires free { IsFree seat.old.view }
    ensures ready { IsReady (G.table gate.now) seat.new }
    ensures part { IsSamePart seat.old.view seat.new.view }
    ensures mine { Adds H.editions_in 0 seat.old.view seat.new.view }
    ensures task { MatchResult result (TaskIs H.editions_in H.rests seat.new.view) (λ fault. IsFree seat.new.view × StopsBy seat.new.view fault) }
    ensures shut { seat.old.view.stopped ≡ true → IsShut result }
{
    let mut held = gate.enter(rt, seat);
    let task = held.value.take(alloc);
    gate.leave(seat, held);
    task
}

// What wasn't recorded, and why. The rest of the answer is let go.
fn unrecorded(given: Result<Given, (Taken, HallFault)>) -> Result<(), (Taken, HallFault)>
    ensures { MatchResult given (λ _. MatchResult result (λ _. Unit {0}) (λ _. ⊥)) (λ back. result ≡ Err back) }
{
    match given {
        Ok(kept) => {
            drop(kept);
            Ok(())
        }
        Err(back) => Err(back),
    }
}

/// One stay, to give what the handler answered to what was taken.
pub(crate) fn finish<H: Hall, G: Door<H>, R: Wait>(
    rt: &R,
    alloc: Global,
    gate: &G,
    seat: &mut Seat<H>,
    taken: Taken,
    out: StepOut,
) -> Result<(), (Taken, HallFault)>
    requires ready { IsReady (G.table gate.now) seat.old }
    requires owes { Owes seat.old.view taken.pid.0 }
    requires answer { IsServed H.editions_in seat.old.view taken.was out }
    ensures ready { IsReady (G.table gate.now) seat.new }
    ensures part { IsSamePart seat.old.view seat.new.view }
    ensures mine { Adds H.editions_in 1 seat.old.view seat.new.view }
    ensures free { MatchResult result (λ _. IsFree seat.new.view) (λ e. Owes seat.new.view taken.pid.0 × (e.0 ≡ taken) × StopsBy seat.new.view e.1) }
{
    let mut held = gate.enter(rt, seat);
    let given = held.value.give(alloc, taken, out);
    gate.leave(seat, held);
    unrecorded(given)
}

/// One stay, to put back what was taken.
pub(crate) fn put_back<H: Hall, G: Door<H>, R: Wait>(
    rt: &R,
    gate: &G,
    seat: &mut Seat<H>,
    taken: Taken,
)
    requires ready { IsReady (G.table gate.now) seat.old }
    requires owes { Owes seat.old.view taken.pid.0 }
    ensures ready { IsReady (G.table gate.now) seat.new }
    ensures part { IsSamePart seat.old.view seat.new.view }
    ensures mine { Adds H.editions_in 0 seat.old.view seat.new.view }
    ensures free { IsFree seat.new.view }
    ensures stopped { seat.old.view.stopped ≡ true → seat.new.view.stopped ≡ true }
{
    let mut held = gate.enter(rt, seat);
    held.value.put_back(taken);
    gate.leave(seat, held);
}

/// One stay, to carry a call or a report.
pub(crate) fn bring<H: Hall, G: Door<H>, R: Wait>(
    rt: &R,
    alloc: Global,
    gate: &G,
    seat: &mut Seat<H>,
) -> Result<bool, HallFault>
    requires ready { IsReady (G.table gate.now) seat.old }
    requires free { IsFree seat.old.view }
    ensures ready { IsReady (G.table gate.now) seat.new }
    ensures part { IsSamePart seat.old.view seat.new.view }
    ensures mine { Adds H.editions_in 0 seat.old.view seat.new.view }
    ensures free { IsFree seat.new.view }
    ensures fault { MatchResult result (λ _. Unit {0}) (λ fault. StopsBy seat.new.view fault) }
{
    let mut held = gate.enter(rt, seat);
    let carried = held.value.carry(alloc);
    gate.leave(seat, held);
    carried
}
