//! What a disk over a real file does, which no clause can say.
use crate::logs::{append, open};
use hm_disk::{Disk, FileDisk};
use hm_log::{Frames, Log, OpenWhy};
use hm_ports::Failed;
use std::alloc::{AllocError, Global};
use std::path::PathBuf;
use std::test::Fail;
use std::{env, fs, io, process};

// The frames of a log that is read in three pieces, the second begun in a frame: so many frames of so many bytes.
const LOG: [(usize, usize); 5] = [(1, 1), (20, 65_536), (3, 7), (17, 65_535), (1, 65_536)];

// A path for this process in the system's folder for passing files.
pub(crate) fn path_of(rt: &HostRuntime, name: &str) -> Result<PathBuf, Fail> {
    let own = format!(in rt.alloc(); "hm-rows-files-{}-{name}", process::id(rt.process()))?;
    Ok(env::temp_dir(rt)?.join(rt.alloc(), own.as_str())?)
}

// Whether a file opens to be read.
pub(crate) fn reads(rt: &HostRuntime, path: &str) -> bool {
    FileDisk::read_only(rt, path).is_ok()
}

// Whether a file opens to be written, or is made.
pub(crate) fn writes(rt: &HostRuntime, path: &str) -> bool {
    FileDisk::writable(rt, path).is_ok()
}

// Whether it opens neither to be written nor to be read.
pub(crate) fn is_refused(rt: &HostRuntime, path: &str) -> bool {
    !writes(rt, path) && !reads(rt, path)
}

// Adds so many frames of so many bytes, all the size's lowest.
fn add(alloc: Global, log: &mut Log<FileDisk>, count: usize, size: usize) -> Result<(), OpenWhy> {
    let frame = vec![in alloc; (size % 256) as u8; size]?;
    for _ in 0..count {
        append(log, &frame)?;
    }
    Ok(())
}

fn add_all(alloc: Global, log: &mut Log<FileDisk>) -> Result<(), OpenWhy> {
    for (count, size) in LOG {
        add(alloc, log, count, size)?;
    }
    Ok(())
}

// Opens the log in a file.
fn opened(rt: &HostRuntime, path: &str) -> Result<(Log<FileDisk>, Frames), OpenWhy> {
    let disk = FileDisk::writable(rt, path)?;
    open(rt.alloc(), disk)
}

fn write_log(rt: &HostRuntime, path: &str) -> Result<u64, OpenWhy> {
    let (mut log, frames) = opened(rt, path)?;
    drop(frames);
    add_all(rt.alloc(), &mut log)?;
    Ok(log.bytes())
}

fn is_frame(frame: &[u8], size: usize) -> bool {
    frame.len() == size && frame.iter().all(|byte| *byte == (size % 256) as u8)
}

// Whether these are the frames of the log.
fn are_log(frames: &[Vec<u8>]) -> bool {
    let mut found = frames.iter();
    let mut well = true;
    for (count, size) in LOG {
        for _ in 0..count {
            match found.next() {
                Some(frame) => well = well && is_frame(frame, size),
                None => return false,
            }
        }
    }
    well && found.next().is_none()
}

// Whether a file has the log, which has so many bytes.
fn has_log(rt: &HostRuntime, path: &str, bytes: u64) -> Result<bool, OpenWhy> {
    let (log, frames) = opened(rt, path)?;
    let size = log.bytes();
    drop(log);
    let frames = frames.into_vec();
    Ok(size == bytes && are_log(&frames))
}

// Whether a log that is written to a file is there when it is opened again.
fn keeps_log(rt: &HostRuntime, path: &str) -> Result<bool, Fail> {
    let bytes = write_log(rt, path)?;
    let length = fs::metadata(rt, path)?.len();
    let is_kept = has_log(rt, path, bytes)?;
    fs::remove_file(rt, path)?;
    Ok(is_kept && length == bytes)
}

#[test]
fn a_written_log_is_there_when_it_is_opened_again(rt: HostRuntime) -> Result<(), Fail> {
    let path = path_of(&rt, "log")?;
    assert!(rt; keeps_log(&rt, path.as_path().as_str())?);
    Ok(())
}

fn write_at_once(rt: &HostRuntime, path: &str, bytes: &[u8]) -> Result<(), Failed> {
    let mut disk = FileDisk::writable(rt, path)?;
    if bytes.is_empty() {
        return Err(Failed);
    }
    disk.write_at(0, bytes)?;
    disk.sync()
}

// Fills the bytes by a disk that only reads.
fn read_at_once(rt: &HostRuntime, path: &str, bytes: &mut [u8]) -> Result<(), Failed> {
    let mut disk = FileDisk::read_only(rt, path)?;
    if bytes.is_empty() {
        return Err(Failed);
    }
    disk.read_at(0, bytes)
}

// Whether bytes that are written at once are read back.
fn keeps_bytes(rt: &HostRuntime, path: &str, bytes: &[u8]) -> Result<bool, OpenWhy> {
    write_at_once(rt, path, bytes)?;
    let mut back = vec![in rt.alloc(); 0; bytes.len()]?;
    read_at_once(rt, path, &mut back)?;
    Ok(back.as_slice() == bytes)
}

// More bytes than are written by one call.
fn many_bytes(alloc: Global) -> Result<Vec<u8>, AllocError> {
    let mut bytes = vec![in alloc; 0; 200_000]?;
    for (place, byte) in bytes.iter_mut().enumerate() {
        *byte = (place % 251) as u8;
    }
    Ok(bytes)
}

fn keeps_many_bytes(rt: &HostRuntime, path: &str) -> Result<bool, Fail> {
    let bytes = many_bytes(rt.alloc())?;
    let is_kept = keeps_bytes(rt, path, &bytes);
    fs::remove_file(rt, path)?;
    Ok(matches!(is_kept, Ok(true)))
}

#[test]
fn a_large_write_is_written_whole(rt: HostRuntime) -> Result<(), Fail> {
    let path = path_of(&rt, "large")?;
    assert!(rt; keeps_many_bytes(&rt, path.as_path().as_str())?);
    Ok(())
}

// Whether a file opens to be written, and meanwhile only to be read.
fn is_opened_once(rt: &HostRuntime, path: &str) -> bool {
    let first = FileDisk::writable(rt, path);
    let is_open = first.is_ok();
    let opens_again = writes(rt, path);
    let is_read = reads(rt, path);
    drop(first);
    is_open && !opens_again && is_read && writes(rt, path)
}

// Whether a file isn't made to be read, and is opened once to be written.
fn is_made_once(rt: &HostRuntime, path: &str) -> io::Result<bool> {
    let is_read = reads(rt, path);
    let is_there = fs::exists(rt, path)?;
    let is_once = is_opened_once(rt, path);
    fs::remove_file(rt, path)?;
    Ok(!is_read && !is_there && is_once)
}

#[test]
fn a_file_is_opened_for_writing_once(rt: HostRuntime) -> Result<(), Fail> {
    let path = path_of(&rt, "once")?;
    assert!(rt; is_made_once(&rt, path.as_path().as_str())?);
    Ok(())
}

const NO_FILES: [&str; 7] = [
    "/",
    "/dev",
    "/dev/null",
    "/dev/zero",
    "/dev/null/x",
    "/nowhere/x",
    "",
];

// Whether nothing is made through a link that leads nowhere, and a file is opened through it once it is there.
fn leads_to_a_file(rt: &HostRuntime, link: &str, target: &str) -> io::Result<bool> {
    std::os::unix::fs::symlink(rt, target, link)?;
    let is_refused = is_refused(rt, link);
    let is_made = fs::exists(rt, target)?;
    fs::write(rt, target, b"HMASTERJ\x02--")?;
    let opens = writes(rt, link);
    fs::remove_file(rt, link)?;
    fs::remove_file(rt, target)?;
    Ok(is_refused && !is_made && opens)
}

#[test]
fn what_is_no_file_of_its_own_is_refused(rt: HostRuntime) -> Result<(), Fail> {
    for path in NO_FILES {
        assert!(rt; is_refused(&rt, path), "{path}");
    }
    let link = path_of(&rt, "link")?;
    let target = path_of(&rt, "target")?;
    let leads = leads_to_a_file(&rt, link.as_path().as_str(), target.as_path().as_str());
    assert!(rt; matches!(leads, Ok(true)));
    Ok(())
}

// Writes a log of version 1 with the frames of a log of version 2.
fn write_first(rt: &HostRuntime, path: &str, bytes: &[u8]) -> Result<(), Fail> {
    let mut first = b"HMASTERJ\x01".to_vec(rt.alloc())?;
    first.extend_from_slice(bytes.get(10..).unwrap_or(b""))?;
    fs::write(rt, path, &first)?;
    Ok(())
}

// How many frames the log in a file has, and its size.
fn count_and_size(rt: &HostRuntime, path: &str) -> Result<(u64, u64), OpenWhy> {
    let (log, frames) = opened(rt, path)?;
    let size = log.bytes();
    drop(log);
    Ok((frames.count(), size))
}

// Whether a log of version 1 becomes this log as it is opened.
fn becomes(rt: &HostRuntime, path: &str, bytes: &[u8]) -> Result<bool, Fail> {
    write_first(rt, path, bytes)?;
    let (count, size) = count_and_size(rt, path)?;
    let moved = fs::read(rt, path)?;
    Ok(count == 42 && size == bytes.len() as u64 && moved.as_slice() == bytes)
}

fn is_moved(rt: &HostRuntime, path: &str) -> Result<bool, Fail> {
    write_log(rt, path)?;
    let bytes = fs::read(rt, path)?;
    let is_moved = becomes(rt, path, &bytes)?;
    fs::remove_file(rt, path)?;
    Ok(is_moved)
}

#[test]
fn a_log_of_version_1_is_moved_in_its_file(rt: HostRuntime) -> Result<(), Fail> {
    let path = path_of(&rt, "first")?;
    assert!(rt; is_moved(&rt, path.as_path().as_str())?);
    Ok(())
}
