//! A wheel by its calls.
ghost use Rattle.std.specs.Prelude.{◌≡◌, ◌≤◌};

use hm_lists::Steps;
use hm_names::Pid;
use hm_timer::Wheel;
use std::alloc::Global;
use std::marker::Brand;
use std::process::Abort;
use std::sync::ledger::{Blank, Ledger};
use std::test::Fail;

// Three timers of which two are due at one tick, and one that is cancelled.
fn three_timers<L: Ledger>(rt: &impl Abort, alloc: Global, blank: Blank) -> Result<(), Fail>
    requires name { blank.name ≡ L.name }
    requires parts { blank.parts ≡ L.parts }
    requires some { 1 ≤ L.parts }
{
    let mut steps = Steps::<L>::new(blank);
    let mut wheel = Wheel::new(alloc)?;
    assert_eq!(rt; wheel.count(), 0);
    wheel.reserve(alloc, 5)?;
    wheel.set(Pid(1), 511);
    wheel.set(Pid(2), 3);
    wheel.set(Pid(4), 3);
    wheel.set(Pid(3), 3);
    assert_eq!(rt; (wheel.count(), wheel.due_of(Pid(4))), (4, Some(3)));
    wheel.cancel(Pid(4));
    assert_eq!(rt; (wheel.count(), wheel.due_of(Pid(4))), (3, None));
    let mut woken = Vec::with_capacity(alloc, wheel.count())?;
    wheel.advance(2, &mut woken, &mut steps);
    assert_eq!(rt; (wheel.count(), woken.len()), (3, 0));
    wheel.advance(3, &mut woken, &mut steps);
    assert_eq!(rt; (wheel.count(), woken.len()), (1, 2));
    wheel.advance(1_000_000, &mut woken, &mut steps);
    assert_eq!(rt; woken.as_slice(), [Pid(2), Pid(3), Pid(1)].as_slice());
    assert_eq!(rt; (wheel.count(), wheel.due_of(Pid(1))), (0, None));
    Ok(())
}

#[test]
fn new_reserve_set_cancel_due_of_and_advance(rt: HostRuntime) -> Result<(), Fail> {
    three_timers::<Brand>(&rt, rt.alloc(), Blank::new(1))
}
