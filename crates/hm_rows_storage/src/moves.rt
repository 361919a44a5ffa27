//! Logs whose frames are moved or replaced, stopped at each call of the disk.
ghost use Rattle.std.specs.Prelude.{◌≡◌, ◌≤◌, false};

use crate::logs::{NEW, ONE, are, disk_of, open};
use crate::stops::choice_of;
use hm_disk::MemDisk;
use hm_log::{Cursor, Frames, Log, OpenWhy};
use std::alloc::{AllocError, Global};

// A log of version 1 with the one frame 1, 2, 3.
const FIRST: &[u8] = b"HMASTERJ\x01+\x03\0\0\0\x01\x02\x03-";

// The same with bytes after its last gate.
const FIRST_MORE: &[u8] = b"HMASTERJ\x01+\x03\0\0\0\x01\x02\x03-\x01\0";

// One without frames.
const FIRST_EMPTY: &[u8] = b"HMASTERJ\x01-";

// The same, moved: the frame is at byte 20.
const MOVED: &[u8] = b"HMASTERJ\x02+..........+\x03\0\0\0\x01\x02\x03-\x14\0\0\0\0\0\0\0";

// What is opened, its frames, an image that then replaces them, where it has frames, and what is there at the end.
const CASES: [(&[u8], &[&[u8]], &[&[u8]], &[u8]); 9] = [
    (b"", &[], &[], NEW),
    (FIRST_EMPTY, &[], &[], NEW),
    (FIRST, &[&[1, 2, 3]], &[], ONE),
    (FIRST_MORE, &[&[1, 2, 3]], &[], ONE),
    (ONE, &[&[1, 2, 3]], &[], ONE),
    (MOVED, &[&[1, 2, 3]], &[], ONE),
    // The image is shorter than the log, and it is longer.
    (
        ONE,
        &[&[1, 2, 3]],
        &[&[4]],
        b"HMASTERJ\x02-+\x01\0\0\0\x04-",
    ),
    (
        ONE,
        &[&[1, 2, 3]],
        &[&[5, 6, 7, 8, 9], &[10]],
        b"HMASTERJ\x02-+\x05\0\0\0\x05\x06\x07\x08\x09+\x01\0\0\0\x0a-",
    ),
    (
        FIRST,
        &[&[1, 2, 3]],
        &[&[4]],
        b"HMASTERJ\x02-+\x01\0\0\0\x04-",
    ),
];

// More than any of these runs has.
const CALLS: u64 = 48;

// The frames of a disk with these bytes, or why it is no log.
fn frames_on(alloc: Global, bytes: &[u8]) -> Result<Frames, OpenWhy> {
    let (log, frames) = open(alloc, disk_of(alloc, bytes, &[])?)?;
    drop(log);
    Ok(frames)
}

fn frames_of(alloc: Global, image: &[&[u8]]) -> Result<Frames, AllocError> {
    let mut frames = Frames::new(alloc)?;
    for frame in image {
        if !frame.is_empty() && frame.len() <= 65_536 {
            frames.push(alloc, frame)?;
        }
    }
    Ok(frames)
}

// Replaces the frames, where the image has any: whether it fails, and the disk after it.
fn replaced(log: Log<MemDisk>, image: &Frames) -> (bool, MemDisk) {
    let mut log = log;
    if log.stalled() || log.bytes() > 64 || image.count() == 0 || image.image_size() > 64 {
        return (false, log.into_disk());
    }
    let failed = log.replace(image).is_err();
    (failed, log.into_disk())
}

// Whether an opening and a replacing fail, with a fault at this call, and the disk after them.
fn run(
    alloc: Global,
    bytes: &[u8],
    image: &Frames,
    fail: u64,
) -> Result<(bool, MemDisk), AllocError> {
    match Log::open(alloc, disk_of(alloc, bytes, &[fail])?) {
        Ok((log, frames)) => {
            drop(frames);
            Ok(replaced(log, image))
        }
        Err((disk, _)) => Ok((true, disk)),
    }
}

// What a stop leaves of the disk after them.
fn left(
    alloc: Global,
    bytes: &[u8],
    image: &Frames,
    fail: u64,
    number: u16,
) -> Result<MemDisk, AllocError> {
    let (_, disk) = run(alloc, bytes, image, fail)?;
    Ok(disk.stop(choice_of(number)))
}

// The first choice to try: only the last three are, where no written byte waits for a sync.
fn first_choice(alloc: Global, bytes: &[u8], image: &Frames, fail: u64) -> Result<u16, AllocError> {
    let one = left(alloc, bytes, image, fail, 0)?;
    let other = left(alloc, bytes, image, fail, 1)?;
    let is_torn = one.bytes() != other.bytes();
    Ok(if is_torn { 0 } else { 255 })
}

// Whether what a stop leaves is right: the old frames, the image's, or no log while a new one is made.
fn is_right(alloc: Global, bytes: &[u8], old: &[&[u8]], image: &[&[u8]]) -> bool {
    match frames_on(alloc, bytes) {
        Ok(left) => are(&left, old) || !image.is_empty() && are(&left, image),
        Err(why) => old.is_empty() && matches!(why, OpenWhy::NotALog(_)),
    }
}

// Whether each stop at this call leaves what is right.
fn stops_well(
    alloc: Global,
    (bytes, old, image): (&[u8], &[&[u8]], &[&[u8]]),
    frames: &Frames,
    fail: u64,
) -> Result<bool, AllocError> {
    let mut well = true;
    for number in first_choice(alloc, bytes, frames, fail)?..258 {
        let left = left(alloc, bytes, frames, fail, number)?;
        well = well && is_right(alloc, left.bytes(), old, image);
    }
    Ok(well)
}

// How many calls of the disk a run has, where the disk reads as this at the end.
fn calls_to(
    alloc: Global,
    bytes: &[u8],
    image: &Frames,
    end: &[u8],
) -> Result<Option<u64>, AllocError> {
    for fail in 0..CALLS {
        let (failed, disk) = run(alloc, bytes, image, fail)?;
        if !failed {
            let is_end = disk.bytes() == end;
            return Ok(if is_end { Some(fail) } else { None });
        }
    }
    Ok(None)
}

// The first call at which a stop leaves what is wrong, or more than any has where the run doesn't end as it must.
fn wrong_stop(
    alloc: Global,
    (bytes, old, image): (&[u8], &[&[u8]], &[&[u8]]),
    end: &[u8],
) -> Result<Option<u64>, AllocError> {
    let frames = frames_of(alloc, image)?;
    let Some(calls) = calls_to(alloc, bytes, &frames, end)? else {
        return Ok(Some(CALLS));
    };
    for fail in 0..calls {
        if !stops_well(alloc, (bytes, old, image), &frames, fail)? {
            return Ok(Some(fail));
        }
    }
    Ok(None)
}

#[test]
fn a_stop_leaves_the_old_frames_or_the_new(rt: HostRuntime) {
    for (bytes, old, image, end) in CASES {
        let wrong = wrong_stop(rt.alloc(), (bytes, old, image), end);
        assert!(rt;
            matches!(wrong, Ok(None)),
            "{bytes:?}, then {} frames, {wrong:?}",
            image.len()
        );
    }
}

// Whether the frame 1, 2, 3 is read from the first gate on, and two appends from that tail's end on.
#[tactic(auto, using(hm_log::proofs::Tails::cursor_stays))]
fn two_tails_are_right(alloc: Global, log: &mut Log<MemDisk>) -> Result<bool, OpenWhy>
    requires live { log.old.stalled ≡ false }
    requires room { (11 ≤ log.old.bytes) × (log.old.bytes ≤ 64) }
{
    let start = Cursor {
        place: 10,
        number: 0,
    };
    let (first, cursor) = log.tail(alloc, start)?;
    let is_first = are(&first, &[&[1, 2, 3]]);
    drop(first);
    log.append(&[4])?;
    log.append(&[5, 6])?;
    let (second, end) = log.tail(alloc, cursor)?;
    let is_second = are(&second, &[&[4], &[5, 6]]);
    drop(second);
    Ok(is_first && is_second && end.place == 31 && end.number == 3)
}

// The same of the log of one frame.
fn tails_are_right(alloc: Global) -> Result<bool, OpenWhy> {
    let (mut log, frames) = open(alloc, disk_of(alloc, ONE, &[])?)?;
    drop(frames);
    if log.stalled() || log.bytes() < 11 || log.bytes() > 64 {
        return Ok(false);
    }
    two_tails_are_right(alloc, &mut log)
}

#[test]
fn a_tail_gives_the_frames_after_its_cursor(rt: HostRuntime) {
    assert!(rt; matches!(tails_are_right(rt.alloc()), Ok(true)));
}
