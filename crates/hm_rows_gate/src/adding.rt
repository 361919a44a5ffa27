//! Threads add numbers to one list, each through a seat of its own.
ghost use Rattle.std.specs.Prelude.{◌≡◌, ◌+◌, ◌≤◌, ◌<◌, All, IfOk, length};
ghost use Rattle.hm_gate.specs.Ready.{IsReady};

use crate::tally::Tally;
use hm_gate::{Gate, Seat};
use std::alloc::{AllocError, Global};
use std::sync::Wait;
use std::test::Fail;
use std::thread;
use std::thread::Threads;

// Adds a number in one stay, and waits while nobody has been in since.
fn add<R: Wait>(
    rt: &R,
    gate: &Gate<Tally>,
    seat: &mut Seat<Tally>,
    number: u64,
) -> Result<(), AllocError>
    requires { IsReady gate.now seat.old }
    ensures ready { IsReady gate.now seat.new }
    ensures parts { (seat.new.view.parts ≡ seat.old.view.parts) × (seat.new.view.seats ≡ seat.old.view.seats) }
{
    let changes = gate.changes();
    let mut held = gate.enter(rt, seat);
    let added = held.value.numbers.push(number);
    gate.leave(seat, held);
    gate.wake_all();
    gate.park(rt, seat, changes);
    added?;
    Ok(())
}

// Cuts seats off, for as many threads.
fn cut(
    alloc: Global,
    gate: &Gate<Tally>,
    seat: &mut Seat<Tally>,
    count: u32,
) -> Result<Vec<Seat<Tally>>, AllocError>
    requires ready { IsReady gate.now seat.old }
    requires parts { seat.old.view.parts ≡ count + 1 }
    ensures seat { IfOk result (λ _. IsReady gate.now seat.new × (seat.new.view.parts ≡ 1) × (seat.new.view.seats ≡ seat.old.view.seats)) }
    ensures all { IfOk result (λ v. All (λ s. IsReady gate.now s × (s.view.parts ≡ 1)) v.items × (length v.items ≡ count)) }
{
    let mut seats = Vec::new(alloc);
    let mut made = 0;
    while made < count {
        seats.push(gate.split_seat(seat))?;
        made += 1;
    }
    Ok(seats)
}

// Each thread adds the number of its seat.
fn add_each<R: Threads + Wait + Sync>(rt: &R, gate: &Gate<Tally>, seats: &mut [Seat<Tally>])
    requires { All (λ s. IsReady gate.now s × (s.view.parts ≡ 1)) seats.old }
    ensures each { All (λ s. IsReady gate.now s × (s.view.parts ≡ 1)) seats.new }
    ensures count { length seats.new ≡ length seats.old }
{
    thread::for_each_mut(
        rt,
        seats,
        4,
        &|i: usize, seat: &mut Seat<Tally>|
            requires { IsReady gate.now seat.now × (seat.now.view.parts ≡ 1) }
            ensures { IsReady gate.entry.now seat.exit.now × (seat.exit.now.view.parts ≡ 1) }
        {
            let _ = add(rt, gate, seat, i as u64);
        },
    );
}

// Joins all seats.
fn join_all(gate: &Gate<Tally>, seat: &mut Seat<Tally>, mut seats: Vec<Seat<Tally>>)
    requires ready { IsReady gate.now seat.old }
    requires all { All (λ s. IsReady gate.now s × (s.view.parts ≡ 1)) seats.items }
    ensures ready { IsReady gate.now seat.new }
    ensures parts { (seat.new.view.parts ≡ seat.old.view.parts + length seats.items) × (seat.new.view.seats ≡ seat.old.view.seats) }
{
    while let Some(other) = seats.pop() {
        gate.join_seat(seat, other);
    }
}

// Adds the numbers below `count` in threads, then `count`, and gives the list and how much of it the last stay has seen.
fn gather<R: Threads + Wait + Sync>(
    rt: &R,
    alloc: Global,
    count: u32,
) -> Result<(Vec<u64>, u64), AllocError>
    requires { count < 1000 }
{
    let tally = Tally {
        numbers: Vec::new(alloc),
        wanted: u64::from(count) + 1,
    };
    let Ok((gate, mut seat)) = Gate::new(alloc, tally, count + 1) else {
        return Err(AllocError);
    };
    let mut seats = cut(alloc, &gate, &mut seat, count)?;
    add_each(rt, &gate, seats.as_mut_slice());
    join_all(&gate, &mut seat, seats);
    add(rt, &gate, &mut seat, u64::from(count))?;
    let seen = seat.seen();
    let Tally { numbers, wanted: _ } = gate.close(seat);
    Ok((numbers, seen))
}

#[test]
fn new_enter_leave_split_seat_join_seat_park_changes_wake_all_close_and_seen(
    rt: HostRuntime,
) -> Result<(), Fail> {
    let (mut numbers, seen) = gather(&rt, rt.alloc(), 40)?;
    assert_eq!(rt; seen, 41);
    assert_eq!(rt; numbers.len(), 41);
    assert_eq!(rt; numbers.last(), Some(&40));
    numbers.sort()?;
    for (i, number) in numbers.iter().enumerate() {
        assert_eq!(rt; *number, i as u64);
    }
    Ok(())
}
