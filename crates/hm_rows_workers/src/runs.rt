//! Workers, each in a thread with a seat of its own, to the end of the gate.
ghost use Rattle.std.specs.Prelude.{◌≡◌, ◌+◌, ◌^◌, ◌<◌, [], ◌∷◌, All, IfOk, length};
ghost use Rattle.hm_gate.specs.Ready.{IsReady};
ghost use Rattle.hm_rows_workers.specs.Tasks.{in_each};
ghost use Rattle.hm_sheet.specs.Own.{own_sheet as own};
ghost use Rattle.hm_workers.specs.Ends.{IsFree, Knows};

use crate::hands::{Hands, Meeting};
use crate::toy::Toy;
use hm_data::Entry;
use hm_gate::{Gate, Seat};
use hm_workers::work_each;
use std::alloc::{AllocError, Global};
use std::sync::Wait;
use std::test::Fail;
use std::thread::Threads;

/// What workers left: the entries, how many of them are durable, and how often a task was served.
#[derive(Drop)]
struct Done {
    entries: Vec<Entry>,
    durable: u64,
    runs: u64,
}

// Cuts seats off, each with hands, for as many workers.
fn cut<'a>(
    alloc: Global,
    gate: &Gate<Toy>,
    seat: &mut Seat<Toy>,
    count: u32,
    meeting: Option<&'a Meeting>,
) -> Result<Vec<(Seat<Toy>, Hands<'a>)>, AllocError>
    requires ready { IsReady gate.now seat.old }
    requires parts { seat.old.view.parts ≡ count + 1 }
    ensures seat { IfOk result (λ _. IsReady gate.now seat.new × (seat.new.view.parts ≡ 1) × (seat.new.view.seats ≡ seat.old.view.seats)) }
    ensures all { IfOk result (λ v. All (λ p. IsReady gate.now p.0 × IsFree p.0.view × (p.0.view.parts ≡ 1) × Knows (λ _. in_each (own 26 ∷ [])) p.0.view (in_each p.1.sheets)) v.items) }
    ensures count { IfOk result (λ v. length v.items ≡ count) }
{
    let mut pairs = Vec::new(alloc);
    let mut made = 0;
    while made < count {
        let hands = Hands::new(alloc, meeting)?;
        pairs.push((gate.split_seat(seat), hands))?;
        made += 1;
    }
    Ok(pairs)
}

// Joins all seats, and counts how often the hands served.
fn join_all(gate: &Gate<Toy>, seat: &mut Seat<Toy>, mut pairs: Vec<(Seat<Toy>, Hands)>) -> u64
    requires ready { IsReady gate.now seat.old }
    requires all { All (λ p. IsReady gate.now p.0 × IsFree p.0.view × (p.0.view.parts ≡ 1) × Knows (λ _. in_each (own 26 ∷ [])) p.0.view (in_each p.1.sheets)) pairs.items }
    ensures ready { IsReady gate.now seat.new }
    ensures parts { (seat.new.view.parts ≡ seat.old.view.parts + length pairs.entry.items) × (seat.new.view.seats ≡ seat.old.view.seats) }
{
    let mut runs: u64 = 0;
    while let Some((other, hands)) = pairs.pop() {
        gate.join_seat(seat, other);
        runs = runs.saturating_add(hands.runs());
    }
    runs
}

// So many workers do so many tasks.
fn work_all<R: Threads + Wait + Sync>(
    rt: &R,
    alloc: Global,
    wanted: u32,
    workers: u32,
    meeting: Option<&Meeting>,
) -> Result<Done, AllocError>
    requires { workers < 1000 }
{
    let toy = Toy::new(alloc, wanted)?;
    let Ok((gate, mut seat)) = Gate::new(alloc, toy, workers + 1) else {
        return Err(AllocError);
    };
    let mut pairs = cut(alloc, &gate, &mut seat, workers, meeting)?;
    work_each(rt, alloc, &gate, pairs.as_mut_slice());
    let runs = join_all(&gate, &mut seat, pairs);
    let (entries, durable) = gate.close(seat).end();
    Ok(Done {
        entries,
        durable,
        runs,
    })
}

// The numbers of the tasks whose answers are recorded, in order.
fn recorded(alloc: Global, entries: &[Entry]) -> Result<Vec<u64>, AllocError> {
    let mut pids = Vec::new(alloc);
    for entry in entries {
        if let Entry::Step {
            pid,
            pick: _,
            out: _,
        } = entry
        {
            pids.push(pid.0)?;
        }
    }
    pids.sort()?;
    Ok(pids)
}

#[test]
fn work_each_does_each_task_once(rt: HostRuntime) -> Result<(), Fail> {
    for workers in [4, 16] {
        let done = work_all(&rt, rt.alloc(), 200, workers, None)?;
        assert_eq!(rt; done.runs, 200, "by {workers}");
        assert_eq!(rt; done.durable, 200, "by {workers}");
        assert_eq!(rt; done.entries.len(), 200, "by {workers}");
        let pids = recorded(rt.alloc(), done.entries.as_slice())?;
        assert_eq!(rt; pids.len(), 200, "by {workers}");
        for (i, pid) in pids.iter().enumerate() {
            assert_eq!(rt; *pid, i as u64, "by {workers}");
        }
    }
    Ok(())
}

// Each of two tasks waits for the other to have begun, so that it can't be served inside the gate.
#[test]
fn work_each_serves_two_tasks_at_once(rt: HostRuntime) -> Result<(), Fail> {
    let meeting = Meeting::new();
    let done = work_all(&rt, rt.alloc(), 2, 2, Some(&meeting))?;
    assert_eq!(rt; done.runs, 2);
    assert_eq!(rt; meeting.met(), 2);
    Ok(())
}
