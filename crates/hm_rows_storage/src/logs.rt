//! What no clause says: that there is memory for an opening, and the format's bytes from outside.
use crate::stops::{choice_of, wanted};
use hm_disk::{Choice, MemDisk};
use hm_log::{Frames, Log, OpenWhy};
use hm_ports::Failed;
use std::alloc::{AllocError, Global};

// A new log.
pub(crate) const NEW: &[u8] = b"HMASTERJ\x02--";

// A log with the one frame 1, 2, 3.
pub(crate) const ONE: &[u8] = b"HMASTERJ\x02-+\x03\0\0\0\x01\x02\x03-";

// After an append of the frame 4.
const TWO: &[u8] = b"HMASTERJ\x02-+\x03\0\0\0\x01\x02\x03+\x01\0\0\0\x04-";

// A disk with room for 128 bytes, whose calls of these numbers fail.
pub(crate) fn disk_of(alloc: Global, bytes: &[u8], fails: &[u64]) -> Result<MemDisk, AllocError> {
    let bytes = bytes.to_vec(alloc)?;
    if bytes.len() > 128 {
        return Err(AllocError);
    }
    MemDisk::new(alloc, 128, bytes, fails.to_vec(alloc)?)
}

pub(crate) fn open(alloc: Global, disk: MemDisk) -> Result<(Log<MemDisk>, Frames), OpenWhy> {
    match Log::open(alloc, disk) {
        Ok(opened) => Ok(opened),
        Err((disk, why)) => {
            drop(disk);
            Err(why)
        }
    }
}

// Adds a frame, where the log takes it.
pub(crate) fn append(log: &mut Log<MemDisk>, frame: &[u8]) -> Result<u64, Failed> {
    if log.stalled() || log.bytes() > 1 << 40 || frame.is_empty() || frame.len() > 65_536 {
        return Err(Failed);
    }
    log.append(frame)
}

// Whether these frames have these bytes.
pub(crate) fn are(frames: &Frames, want: &[&[u8]]) -> bool {
    let mut same = frames.count() == want.len() as u64;
    for (number, frame) in want.iter().enumerate() {
        same = same && (number as u64) < frames.count() && frames.frame(number as u64) == *frame;
    }
    same
}

// How many frames an opened log has, its size, and what the disk then reads.
fn opened(alloc: Global, disk: MemDisk) -> Result<(u64, u64, MemDisk), OpenWhy> {
    let (log, frames) = open(alloc, disk)?;
    let count = frames.count();
    drop(frames);
    let bytes = log.bytes();
    Ok((count, bytes, log.into_disk()))
}

// Whether an opening of a disk finds so many frames, and leaves these bytes.
fn opens_as(alloc: Global, disk: MemDisk, frames: u64, left: &[u8]) -> Result<bool, OpenWhy> {
    let (count, bytes, disk) = opened(alloc, disk)?;
    Ok(count == frames && bytes == left.len() as u64 && disk.bytes() == left)
}

// How many frames an opening finds in bytes.
fn count_opened(alloc: Global, bytes: &[u8]) -> Result<u64, OpenWhy> {
    let (count, _, disk) = opened(alloc, disk_of(alloc, bytes, &[])?)?;
    drop(disk);
    Ok(count)
}

// How many frames a scan finds in bytes, where the calls of the disk with these numbers fail.
fn count_scanned(alloc: Global, bytes: &[u8], fails: &[u64]) -> Result<u64, OpenWhy> {
    let mut disk = disk_of(alloc, bytes, fails)?;
    let frames = Log::scan(alloc, &mut disk)?;
    Ok(frames.count())
}

// The log of one frame after an append of the frame 4, with a fault at this call, and a stop.
fn stopped(alloc: Global, fail: u64, choice: Choice) -> Result<MemDisk, OpenWhy> {
    let (mut log, frames) = open(alloc, disk_of(alloc, ONE, &[fail])?)?;
    drop(frames);
    let _ = append(&mut log, &[4]);
    Ok(log.into_disk().stop(choice))
}

// For each call that fails: how many frames are synced, and how many there are where a gate that isn't synced is open.
// The calls of `open` are 0 to 3, those of `append` a write, a sync, a write and a sync.
const STOPS: [(u64, u64, u64); 5] = [(4, 1, 1), (5, 1, 1), (6, 1, 1), (7, 1, 2), (99, 2, 2)];

// Whether a stop at a call leaves one frame or two, as it must.
fn stops_well(
    alloc: Global,
    (fail, synced, open): (u64, u64, u64),
    choice: Choice,
) -> Result<bool, OpenWhy> {
    let disk = stopped(alloc, fail, choice)?;
    let (count, bytes, disk) = opened(alloc, disk)?;
    let frames = wanted(choice, synced, open);
    let size = if frames == 2 { 25 } else { 19 };
    Ok(count == frames && bytes == size && disk.bytes().len() as u64 == bytes)
}

#[test]
fn a_stop_leaves_one_frame_or_two(rt: HostRuntime) {
    for stop in STOPS {
        for number in 0..258 {
            let well = stops_well(rt.alloc(), stop, choice_of(number));
            assert!(rt;
                matches!(well, Ok(true)),
                "fault {}, choice {number}",
                stop.0
            );
        }
    }
}

// Whether an opening cuts the log of one frame, where this byte stands after it up to a size.
fn is_cut(alloc: Global, size: usize, byte: u8) -> Result<bool, OpenWhy> {
    let mut bytes = ONE.to_vec(alloc)?;
    bytes.resize(size, byte)?;
    let disk = disk_of(alloc, &bytes, &[])?;
    drop(bytes);
    opens_as(alloc, disk, 1, ONE)
}

#[test]
fn open_cuts_what_stands_after_the_gate(rt: HostRuntime) {
    for size in 19..=25 {
        for byte in [b'+', b'-', 0] {
            assert!(rt;
                matches!(is_cut(rt.alloc(), size, byte), Ok(true)),
                "{byte} up to {size}"
            );
        }
        let want = if size == 25 {
            Ok(2)
        } else {
            Err(OpenWhy::BadFrame(18))
        };
        assert!(rt; count_opened(rt.alloc(), &TWO[..size]) == want, "{size}");
    }
}

// What is no log, and why.
const REFUSED: [(&[u8], OpenWhy); 14] = [
    (b"HMASTER", OpenWhy::NotALog(7)),
    (b"XMASTERJ\x01-", OpenWhy::NotALog(0)),
    (b"HMASTERJ\x09-", OpenWhy::NotALog(10)),
    (b"XMASTERJ\x09-", OpenWhy::NotALog(0)),
    (b"HMASTERJ\x01+", OpenWhy::BadFrame(9)),
    (b"HMASTERJ\x01+\0\0\0\0-", OpenWhy::BadFrame(9)),
    (b"HMASTERJ\x01+\x01\0\x01\0-", OpenWhy::BadFrame(9)),
    (b"HMASTERJ\x02-+", OpenWhy::BadFrame(10)),
    (b"HMASTERJ\x02++", OpenWhy::NotALog(9)),
    // The place is below 11, above the size less 9, or has too little room before it.
    (b"HMASTERJ\x02+---\x0a\0\0\0\0\0\0\0", OpenWhy::NotALog(9)),
    (b"HMASTERJ\x02+---\x0d\0\0\0\0\0\0\0", OpenWhy::NotALog(9)),
    (b"HMASTERJ\x02+---\x0b\0\0\0\0\0\0\0", OpenWhy::NotALog(9)),
    // The closed gate isn't right before the place, and a frame runs into the place.
    (
        b"HMASTERJ\x02+.....-.\x0f\0\0\0\0\0\0\0",
        OpenWhy::BadFrame(15),
    ),
    (
        b"HMASTERJ\x02+.......+\x01\0\0\0\x04\x11\0\0\0\0\0\0\0",
        OpenWhy::BadFrame(17),
    ),
];

// Whether an opening and a scan of bytes fail so.
fn are_refused(alloc: Global, bytes: &[u8], why: OpenWhy) -> bool {
    count_opened(alloc, bytes) == Err(why) && count_scanned(alloc, bytes, &[]) == Err(why)
}

#[test]
fn open_and_scan_refuse_what_is_no_log(rt: HostRuntime) {
    for (bytes, why) in REFUSED {
        assert!(rt; are_refused(rt.alloc(), bytes, why), "{bytes:?}");
    }
}

#[test]
fn a_front_of_a_new_log_is_no_log(rt: HostRuntime) {
    for size in 1..NEW.len() {
        let why = OpenWhy::NotALog(size as u64);
        assert!(rt;
            count_opened(rt.alloc(), &NEW[..size]) == Err(why),
            "{size}"
        );
    }
}

// Whether a scan of bytes finds these frames, and leaves the bytes.
fn scans_as(alloc: Global, bytes: &[u8], want: &[&[u8]]) -> Result<bool, OpenWhy> {
    let mut disk = disk_of(alloc, bytes, &[])?;
    let frames = Log::scan(alloc, &mut disk)?;
    Ok(are(&frames, want) && disk.bytes() == bytes)
}

#[test]
fn scan_gives_the_frames(rt: HostRuntime) {
    assert!(rt; matches!(scans_as(rt.alloc(), TWO, &[&[1, 2, 3], &[4]]), Ok(true)));
    assert!(rt; matches!(scans_as(rt.alloc(), b"", &[]), Ok(true)));
    assert!(rt; count_scanned(rt.alloc(), ONE, &[1]) == Err(OpenWhy::Fault));
}

// Whether the log on a disk has no frame, and takes the frames 1, 2, 3 and 4.
fn grows(alloc: Global, disk: MemDisk) -> Result<bool, OpenWhy> {
    let (mut log, frames) = open(alloc, disk)?;
    let count = frames.count();
    drop(frames);
    let first = append(&mut log, &[1, 2, 3]);
    let second = append(&mut log, &[4]);
    let disk = log.into_disk();
    let numbers = matches!(first, Ok(0)) && matches!(second, Ok(1));
    Ok(count == 0 && numbers && disk.bytes() == TWO)
}

// Whether an opening makes a log of an empty disk, and that log grows.
fn begins_and_grows(alloc: Global) -> Result<bool, OpenWhy> {
    let (count, bytes, disk) = opened(alloc, disk_of(alloc, b"", &[])?)?;
    let is_new = count == 0 && bytes == 11 && disk.bytes() == NEW;
    Ok(grows(alloc, disk)? && is_new)
}

#[test]
fn open_makes_a_log_and_append_adds_to_it(rt: HostRuntime) {
    assert!(rt; matches!(begins_and_grows(rt.alloc()), Ok(true)));
}
