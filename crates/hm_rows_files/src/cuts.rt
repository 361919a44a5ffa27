//! A log of one frame on a disk that is cut while a second frame is added.
use crate::logs::{append, open};
use hm_disk::{Arm, Choice, CutDisk, Disk, MemDisk};
use hm_log::OpenWhy;
use hm_ports::Failed;
use std::alloc::{AllocError, Global};

// A log with the one frame 1, 2, 3.
const ONE: &[u8] = b"HMASTERJ\x02-+\x03\0\0\0\x01\x02\x03-";

// So many changes, and so many bytes of the next; how many frames are left where the disk reads as before, and
// where it is as it was synced last.
const CUTS: [(u64, u64, u64, u64); 7] = [
    (0, 0, 1, 1),
    (0, 3, 1, 1),
    (0, 99, 1, 1),
    (1, 0, 1, 1),
    (1, 1, 2, 1),
    (2, 0, 2, 2),
    (3, 5, 2, 2),
];

fn disk_of_one(alloc: Global) -> Result<MemDisk, AllocError> {
    let bytes = ONE.to_vec(alloc)?;
    if bytes.len() > 64 {
        return Err(AllocError);
    }
    MemDisk::new(alloc, 64, bytes, Vec::new(alloc))
}

// Whether an append succeeds on a disk that is cut, and what a stop then leaves.
fn appended(
    alloc: Global,
    changes: u64,
    bytes: u64,
    choice: Choice,
) -> Result<(bool, MemDisk), OpenWhy> {
    let mut disk = CutDisk::new(disk_of_one(alloc)?);
    disk.arm(changes, bytes);
    let (mut log, frames) = open(alloc, disk)?;
    drop(frames);
    let is_added = append(&mut log, &[4]).is_ok();
    Ok((is_added, log.into_disk().inner().stop(choice)))
}

fn count_frames(alloc: Global, disk: MemDisk) -> Result<u64, OpenWhy> {
    let (log, frames) = open(alloc, disk)?;
    drop(log);
    Ok(frames.count())
}

// Whether a cut lets an append succeed only after two changes, and a stop leaves so many frames.
fn is_cut_well(
    alloc: Global,
    (changes, bytes): (u64, u64),
    choice: Choice,
    want: u64,
) -> Result<bool, OpenWhy> {
    let (is_added, disk) = appended(alloc, changes, bytes, choice)?;
    let frames = count_frames(alloc, disk)?;
    Ok(is_added == (changes > 1) && frames == want)
}

#[test]
fn a_cut_passes_as_many_changes_and_bytes_as_it_is_told(rt: HostRuntime) {
    for (changes, bytes, as_read, synced) in CUTS {
        for (choice, want) in [(Choice::AsRead, as_read), (Choice::Synced, synced)] {
            let well = is_cut_well(rt.alloc(), (changes, bytes), choice, want);
            assert!(rt; matches!(well, Ok(true)), "{changes} {bytes} {choice:?}");
        }
    }
}

// Whether a disk begins with these four bytes.
fn begins_with(disk: &mut CutDisk<MemDisk>, bytes: &[u8]) -> Result<bool, Failed> {
    let mut front = [0; 4];
    if disk.size()? < 4 {
        return Err(Failed);
    }
    disk.read_at(0, &mut front)?;
    Ok(front.as_slice() == bytes)
}

// Whether a disk that is cut at its first change fails from then on, and answers as before once it is disarmed.
fn fails_until_disarmed(alloc: Global) -> Result<bool, AllocError> {
    let mut disk = CutDisk::new(disk_of_one(alloc)?);
    disk.arm(0, 2);
    let before = disk.size();
    let _ = disk.write_at(0, b"xyz");
    let after = disk.size();
    let _ = disk.sync();
    disk.disarm();
    let later = disk.size();
    let sizes = matches!(before, Ok(19)) && after.is_err() && matches!(later, Ok(19));
    Ok(sizes && matches!(begins_with(&mut disk, b"xyAS"), Ok(true)))
}

#[test]
fn a_cut_disk_fails_until_it_is_disarmed(rt: HostRuntime) {
    assert!(rt; matches!(fails_until_disarmed(rt.alloc()), Ok(true)));
}
