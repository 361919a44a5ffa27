//! A clock by its calls.
ghost use Rattle.std.specs.Prelude.{◌≡◌, ◌≤◌};

use hm_clock::Clock;
use hm_lists::Steps;
use hm_names::Pid;
use std::alloc::Global;
use std::marker::Brand;
use std::process::Abort;
use std::sync::ledger::{Blank, Ledger};
use std::test::Fail;

// Three timers of a clock whose first pid is 2^48 - 100, of which two are due at one tick.
fn far_timers<L: Ledger>(rt: &impl Abort, alloc: Global, blank: Blank) -> Result<(), Fail>
    requires name { blank.name ≡ L.name }
    requires parts { blank.parts ≡ L.parts }
    requires some { 1 ≤ L.parts }
{
    let mut steps = Steps::<L>::new(blank);
    let mut clock = Clock::new(alloc, 281_474_976_710_556)?;
    clock.reserve(alloc, 281_474_976_710_756)?;
    clock.set(Pid(281_474_976_710_755), 3);
    clock.set(Pid(281_474_976_710_556), 3);
    clock.set(Pid(281_474_976_710_656), 2);
    let rows = [
        (0, None),
        (100, None),
        (281_474_976_710_555, None),
        (281_474_976_710_556, Some(3)),
        (281_474_976_710_557, None),
        (281_474_976_710_656, Some(2)),
        (281_474_976_710_755, Some(3)),
        (281_474_976_710_756, None),
    ];
    for (pid, due) in rows {
        assert_eq!(rt;
            (clock.due_of(Pid(pid)), clock.is_set(Pid(pid))),
            (due, due.is_some())
        );
    }
    clock.set_wait(7);
    let mut woken = Vec::with_capacity(alloc, clock.count())?;
    clock.advance(2, &mut woken, &mut steps);
    assert_eq!(rt; woken.as_slice(), [Pid(281_474_976_710_656)].as_slice());
    clock.advance(3, &mut woken, &mut steps);
    let all = [
        Pid(281_474_976_710_656),
        Pid(281_474_976_710_755),
        Pid(281_474_976_710_556),
    ];
    assert_eq!(rt; woken.as_slice(), all.as_slice());
    assert_eq!(rt; (clock.now(), clock.wait(), clock.count()), (3, 7, 0));
    Ok(())
}

#[test]
fn new_reserve_set_due_of_is_set_and_advance(rt: HostRuntime) -> Result<(), Fail> {
    far_timers::<Brand>(&rt, rt.alloc(), Blank::new(1))
}

// Pids that are too far from the first one get no memory, and those below it need none.
#[test]
fn reserve_of_too_many(rt: HostRuntime) -> Result<(), Fail> {
    let mut clock = Clock::new(rt.alloc(), 100)?;
    clock.reserve(rt.alloc(), 50)?;
    assert!(&rt; clock.reserve(rt.alloc(), 4_294_967_396).is_err());
    Ok(())
}
