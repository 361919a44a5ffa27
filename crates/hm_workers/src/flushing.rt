//! A flush: the log goes out in one stay, is written while others go in and out, and comes back in another stay.
ghost use Rattle.std.specs.Prelude.{◌≡◌, true, IfNone, MatchOption, MatchResult, OnOk};
ghost use Rattle.hm_gate.specs.Gate.{Begins};
ghost use Rattle.hm_gate.specs.Ready.{IsReady};
ghost use Rattle.hm_workers.specs.Ends.{HasLog, IsFlushed, IsFree, IsSamePart, StopsBy};
ghost use Rattle.hm_workers.specs.Ran.{Adds};

use crate::door::Door;
use hm_gate::Seat;
use hm_hall::HallFault;
use hm_lend::{Hall, Writer};
use std::sync::Wait;

// One stay, in which the log goes out, where there is something to write.
fn go_out<H: Hall, G: Door<H>, R: Wait>(rt: &R, gate: &G, seat: &mut Seat<H>) -> Option<H::Out>
    requires ready { IsReady (G.table gate.now) seat.old }
    requires free { IsFree seat.old.view }
    ensures ready { IsReady (G.table gate.now) seat.new }
    ensures part { IsSamePart seat.old.view seat.new.view }
    ensures mine { Adds H.editions_in 0 seat.old.view seat.new.view }
    ensures goes { MatchOption result (IsFree seat.new.view) (λ out. HasLog seat.new.view (H.Out.out out)) }
    ensures front { Begins seat.new.view.front seat.old.view.front }
    ensures none { IfNone result (IsFlushed H.shown H.hall seat.old.view.front seat.new.view) }
{
    let mut held = gate.enter(rt, seat);
    let out = held.value.lend();
    gate.leave(seat, held);
    out
}

// One stay, in which the log comes back that was written.
fn come_back<H: Hall, G: Door<H>, R: Wait>(
    rt: &R,
    gate: &G,
    seat: &mut Seat<H>,
    out: H::Out,
) -> Result<u64, HallFault>
    requires ready { IsReady (G.table gate.now) seat.old }
    requires log { HasLog seat.old.view (H.Out.out out) }
    requires written { (H.Out.out out).written ≡ true }
    ensures ready { IsReady (G.table gate.now) seat.new }
    ensures part { IsSamePart seat.old.view seat.new.view }
    ensures mine { Adds H.editions_in 0 seat.old.view seat.new.view }
    ensures free { IsFree seat.new.view }
    ensures flushed { OnOk result (IsFlushed H.shown H.hall seat.old.view.front seat.new.view) }
    ensures fault { MatchResult result (λ _. Unit {0}) (λ fault. StopsBy seat.new.view fault) }
{
    let mut held = gate.enter(rt, seat);
    let back = held.value.back(out);
    gate.leave(seat, held);
    back
}

/// Writes what was recorded and isn't durable.
pub(crate) fn flush<H: Hall, G: Door<H>, R: Wait>(
    rt: &R,
    gate: &G,
    seat: &mut Seat<H>,
) -> Result<(), HallFault>
    requires ready { IsReady (G.table gate.now) seat.old }
    requires free { IsFree seat.old.view }
    ensures ready { IsReady (G.table gate.now) seat.new }
    ensures part { IsSamePart seat.old.view seat.new.view }
    ensures mine { Adds H.editions_in 0 seat.old.view seat.new.view }
    ensures free { IsFree seat.new.view }
    ensures flushed { OnOk result (IsFlushed H.shown H.hall seat.old.view.front seat.new.view) }
    ensures fault { MatchResult result (λ _. Unit {0}) (λ fault. StopsBy seat.new.view fault) }
{
    match go_out(rt, gate, seat) {
        Some(mut out) => {
            out.write();
            match come_back(rt, gate, seat, out) {
                Ok(_) => Ok(()),
                Err(fault) => Err(fault),
            }
        }
        None => Ok(()),
    }
}
