//! What no clause says: that there is memory for a batch, and how it is written.
use crate::logs::open;
use crate::stops::{choice_of, wanted};
use hm_batch::Batch;
use hm_disk::{Choice, MemDisk};
use hm_log::Log;
use hm_ports::Failed;
use std::alloc::{AllocError, Global};

// A run of two frames.
const RUN: &[u64] = &[1, 2];

// Three pieces, each of one frame.
const PIECES: &[u64] = &[1, 65_536, 1];

// No call of a test has this number.
const NEVER: u64 = 99;

fn add(alloc: Global, batch: &mut Batch, size: u64) -> Result<(), AllocError> {
    let frame = vec![in alloc; 7; size as usize]?;
    if !frame.is_empty() && frame.len() <= 65_536 {
        batch.reserve(frame.len() as u64)?;
        batch.put(&frame);
    }
    Ok(())
}

// A batch of frames of these sizes.
fn batch_of(alloc: Global, sizes: &[u64]) -> Result<Batch, AllocError> {
    let mut batch = Batch::new(alloc)?;
    for size in sizes {
        add(alloc, &mut batch, *size)?;
    }
    Ok(batch)
}

// Flushes a batch, where its frames fit the log.
fn flush(batch: &mut Batch, log: &mut Log<MemDisk>) -> Result<u64, Failed> {
    if log.stalled() || log.bytes().checked_add(batch.bytes()).is_none() {
        return Err(Failed);
    }
    batch.flush(log)
}

// A new disk with room for so many bytes, whose call of this number fails.
fn new_disk(alloc: Global, room: u64, fail: u64) -> Result<MemDisk, AllocError> {
    MemDisk::new(alloc, room, Vec::new(alloc), [fail].to_vec(alloc)?)
}

// The log on such a disk, if it opens.
fn new_log(alloc: Global, room: u64, fail: u64) -> Result<Option<Log<MemDisk>>, AllocError> {
    match open(alloc, new_disk(alloc, room, fail)?) {
        Ok((log, frames)) => {
            drop(frames);
            Ok(Some(log))
        }
        Err(_) => Ok(None),
    }
}

// How many calls of the disk the opening of a new log makes.
fn calls_of_an_opening(alloc: Global) -> Result<u64, AllocError> {
    for fail in 0..16 {
        let log = new_log(alloc, 64, fail)?;
        let is_open = log.is_some();
        drop(log);
        if is_open {
            return Ok(fail);
        }
    }
    Err(AllocError)
}

// How many frames a disk holds.
fn frames_on(alloc: Global, disk: MemDisk) -> Option<u64> {
    let mut disk = disk;
    match Log::scan(alloc, &mut disk) {
        Ok(frames) => Some(frames.count()),
        Err(_) => None,
    }
}

// Whether a flush succeeds, and how many frames a stop then leaves.
fn left(
    alloc: Global,
    batch: &mut Batch,
    log: Log<MemDisk>,
    choice: Choice,
) -> Option<(bool, u64)> {
    let mut log = log;
    let is_flushed = flush(batch, &mut log).is_ok();
    let frames = frames_on(alloc, log.into_disk().stop(choice))?;
    Some((is_flushed, frames))
}

// Whether a flush on a new log, whose disk fails at a call of the flush, and a stop leave as many frames as they must.
fn stops_well(
    alloc: Global,
    batch: &mut Batch,
    (call, synced, open): (u64, u64, u64),
    choice: Choice,
) -> Result<bool, AllocError> {
    let fail = calls_of_an_opening(alloc)?.saturating_add(call);
    let room = batch.bytes().saturating_add(64);
    let Some(log) = new_log(alloc, room, fail)? else {
        return Ok(false);
    };
    Ok(match left(alloc, batch, log, choice) {
        Some((is_flushed, frames)) => {
            is_flushed == (call == NEVER) && frames == wanted(choice, synced, open)
        }
        None => false,
    })
}

// For each call of a flush of a run that fails, a write, a sync, a write and a sync: how many frames are synced, and how
// many there are where a gate that isn't synced is open.
const RUN_STOPS: [(u64, u64, u64); 5] = [(0, 0, 0), (1, 0, 0), (2, 0, 0), (3, 0, 2), (NEVER, 2, 2)];

// Whether a stop at a call leaves none of a run, or all, as it must.
fn run_stops_well(
    alloc: Global,
    stop: (u64, u64, u64),
    choice: Choice,
) -> Result<bool, AllocError> {
    let mut batch = batch_of(alloc, RUN)?;
    stops_well(alloc, &mut batch, stop, choice)
}

#[test]
fn a_stop_leaves_none_of_a_run_or_all(rt: HostRuntime) {
    for stop in RUN_STOPS {
        for number in 0..258 {
            let well = run_stops_well(rt.alloc(), stop, choice_of(number));
            assert!(rt;
                matches!(well, Ok(true)),
                "call {}, choice {number}",
                stop.0
            );
        }
    }
}

// The same of a flush of three pieces.
const STOPS: [(u64, u64, u64); 13] = [
    (0, 0, 0),
    (1, 0, 0),
    (2, 0, 0),
    (3, 0, 1),
    (4, 1, 1),
    (5, 1, 1),
    (6, 1, 1),
    (7, 1, 2),
    (8, 2, 2),
    (9, 2, 2),
    (10, 2, 2),
    (11, 2, 3),
    (NEVER, 3, 3),
];

// The first call at which a stop doesn't leave the pieces that it must. The batch is as it was after each flush that
// fails, and empty at the end, or that is wrong.
fn wrong_stop(alloc: Global, choice: Choice) -> Result<Option<u64>, AllocError> {
    let mut batch = batch_of(alloc, PIECES)?;
    for stop in STOPS {
        if !stops_well(alloc, &mut batch, stop, choice)? {
            return Ok(Some(stop.0));
        }
    }
    let is_empty = batch.bytes() == 0;
    Ok(if is_empty { None } else { Some(NEVER) })
}

#[test]
fn a_stop_leaves_the_first_pieces_of_a_batch(rt: HostRuntime) {
    for choice in [Choice::Synced, Choice::AsRead, Choice::Fill(b'-')] {
        let wrong = wrong_stop(rt.alloc(), choice);
        assert!(rt; matches!(wrong, Ok(None)), "{choice:?}, {wrong:?}");
    }
}

// Whether a flush of a run of two frames and one of none write that run to a new log.
fn is_one_run(batch: &mut Batch, log: Log<MemDisk>) -> bool {
    let mut log = log;
    let first = flush(batch, &mut log);
    let second = flush(batch, &mut log);
    let disk = log.into_disk();
    let counts = matches!(first, Ok(2)) && matches!(second, Ok(2));
    counts
        && disk
            .bytes()
            .ends_with(b"+\x01\0\0\0\x07+\x02\0\0\0\x07\x07-")
}

fn writes_one_run(alloc: Global) -> Result<bool, AllocError> {
    let mut batch = batch_of(alloc, RUN)?;
    let size = batch.bytes();
    Ok(match new_log(alloc, 64, NEVER)? {
        Some(log) => is_one_run(&mut batch, log) && size == 13,
        None => false,
    })
}

#[test]
fn new_reserve_put_and_flush_write_one_run(rt: HostRuntime) {
    assert!(rt; matches!(writes_one_run(rt.alloc()), Ok(true)));
}
