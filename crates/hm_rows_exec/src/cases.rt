//! Lists of events, played and compared.
use crate::events::{Event, Row, say};
use crate::kept::{Bounds, WIDE};
use crate::rows;
use crate::run::Run;
use std::alloc::{AllocError, AllocGlobal};
use std::process::Abort;
use std::test::Fail;

const CASES: [(u64, &[Row]); 13] = [
    (u64::MAX, rows::SHARED),
    (u64::MAX, rows::ALONE),
    (u64::MAX, rows::BEHIND_A_FAILURE),
    (u64::MAX, rows::ABORTED),
    (u64::MAX, rows::REPORTED),
    (u64::MAX, rows::UNPICKED),
    (u64::MAX, rows::REPICKED),
    (u64::MAX, rows::PUT_BACK),
    (u64::MAX, rows::REPORTS),
    (u64::MAX, rows::SUBMISSIONS),
    (u64::MAX, rows::ABORTS),
    (rows::SOFT, rows::FULL),
    (u64::MAX, rows::WHOLE),
];

// Plays the events of the first rows, so many at most, and compares what they say.
fn plays(
    rt: &(impl Abort + AllocGlobal),
    run: &mut Run,
    rows: &[Row],
    most: usize,
) -> Result<(), AllocError> {
    for (event, wanted) in rows.iter().take(most) {
        let said = say(rt.alloc(), run, *event)?;
        assert_eq!(rt; said.as_str(), *wanted, "{event:?}");
    }
    Ok(())
}

#[test]
fn events_of_an_executor(rt: HostRuntime) -> Result<(), Fail> {
    for (soft, rows) in CASES {
        let mut run = Run::begin(rt.alloc(), Bounds { soft, ..WIDE })?;
        let played = plays(&rt, &mut run, rows, rows.len());
        run.end();
        played?;
    }
    Ok(())
}

// Plays an event that says this.
fn says(
    rt: &(impl Abort + AllocGlobal),
    run: &mut Run,
    event: Event,
    wanted: &str,
) -> Result<(), AllocError> {
    let said = say(rt.alloc(), run, event)?;
    assert_eq!(rt; said.as_str(), wanted, "{event:?}");
    Ok(())
}

// Plays events each of which says that the recorder is halted: no more than those that are claimed are committed.
fn says_halted(
    rt: &(impl Abort + AllocGlobal),
    run: &mut Run,
    halted: &str,
) -> Result<(), AllocError> {
    for event in rows::AFTER {
        says(rt, run, event, halted)?;
    }
    for pid in 1..=4 {
        let was = run.claims();
        let said = say(rt.alloc(), run, Event::Commit(pid))?;
        let wanted = if run.claims() < was {
            halted
        } else {
            "nothing"
        };
        assert_eq!(rt; said.as_str(), wanted, "{pid}");
    }
    assert_eq!(rt; run.claims(), 0);
    Ok(())
}

// Plays the run with each kind of entry up to the event at which the recorder halts, and compares what that and those after it say.
fn halts(
    rt: &(impl Abort + AllocGlobal),
    run: &mut Run,
    at: usize,
    wanted: &str,
    halted: &str,
) -> Result<(), AllocError> {
    plays(rt, run, rows::WHOLE, at)?;
    if let Some((event, _)) = rows::WHOLE.get(at) {
        says(rt, run, *event, wanted)?;
    }
    says_halted(rt, run, halted)
}

// The same within these bounds: how many entries are recorded then.
fn halts_within(
    rt: &(impl Abort + AllocGlobal),
    bounds: Bounds,
    at: usize,
    why: &str,
    rest: &str,
) -> Result<usize, AllocError> {
    let wanted = format!(in rt.alloc(); "{why}{rest}")?;
    let halted = format!(in rt.alloc(); "Halted({why})")?;
    let mut run = Run::begin(rt.alloc(), bounds)?;
    let halts = halts(rt, &mut run, at, wanted.as_str(), halted.as_str());
    let count = run.recorder().entries().len();
    run.end();
    halts?;
    Ok(count)
}

#[test]
fn events_of_an_executor_whose_recorder_halts(rt: HostRuntime) -> Result<(), Fail> {
    for (left, at, bytes, hard, rest) in rows::HALTS {
        let entries = (left as usize).saturating_add(1);
        let fails = Bounds { left, ..WIDE };
        assert_eq!(rt; halts_within(&rt, fails, at, "LogFault", rest)?, entries);
        let full = Bounds { hard, ..WIDE };
        let why = format!(in rt.alloc(); "JournalFull({bytes})")?;
        assert_eq!(rt; halts_within(&rt, full, at, why.as_str(), rest)?, entries);
    }
    Ok(())
}
