//! What no clause says: that there is memory for a disk, and that a file keeps its bytes.
use hm_disk::{Choice, Disk, FileDisk, MemDisk};
use hm_ports::Failed;
use std::alloc::{AllocError, Global};
use std::fs::{File, Files};
use std::path::PathBuf;
use std::test::Fail;
use std::{env, fs, process};

fn may_go_to_a_thread<T: Send>(_: &T) {}

// A disk of "abcd" with room for 4 bytes more, whose call 1 fails.
fn disk_of_abcd(alloc: Global) -> Result<MemDisk, AllocError> {
    let fails = [1].to_vec(alloc)?;
    let bytes = b"abcd".to_vec(alloc)?;
    let room = bytes.len() as u64 + 4;
    MemDisk::new(alloc, room, bytes, fails)
}

// Whether a write at 3 and a stop leave these bytes.
fn stops_as(disk: MemDisk, choice: Choice, left: &[u8]) -> bool {
    let mut disk = disk;
    if disk.bytes().len() < 3 || disk.write_at(3, b"XYZ").is_err() {
        return false;
    }
    let stopped = disk.stop(choice);
    may_go_to_a_thread(&stopped);
    stopped.bytes() == left
}

#[test]
fn new_makes_a_disk_that_stops(rt: HostRuntime) -> Result<(), Fail> {
    let cases = [
        (Choice::Synced, b"abcd".as_slice()),
        (Choice::AsRead, b"abcXYZ".as_slice()),
        (Choice::Fill(b'?'), b"abc???".as_slice()),
    ];
    for (choice, left) in cases {
        assert!(rt;
            stops_as(disk_of_abcd(rt.alloc())?, choice, left),
            "{choice:?}"
        );
    }
    Ok(())
}

// Whether the second call fails, and a write that has no room; other calls do as they are told.
fn fails_as_told(disk: MemDisk) -> bool {
    let mut disk = disk;
    let first = disk.size();
    let second = disk.size();
    if disk.bytes().len() < 4 {
        return false;
    }
    let long = disk.write_at(4, b"efghi");
    let fitting = disk.write_at(4, b"efgh");
    let sizes = matches!(first, Ok(4)) && matches!(second, Err(Failed));
    let writes = matches!(long, Err(Failed)) && matches!(fitting, Ok(()));
    sizes && writes && disk.bytes() == b"abcdefgh".as_slice()
}

#[test]
fn a_mem_disk_fails_as_told(rt: HostRuntime) -> Result<(), Fail> {
    assert!(rt; fails_as_told(disk_of_abcd(rt.alloc())?));
    Ok(())
}

// Makes the file "abcd" in two changes.
fn write_abcd(disk: &mut FileDisk) -> Result<(), Failed> {
    disk.write_at(0, b"abcdef")?;
    disk.cut(4)?;
    disk.sync()
}

// Whether a file has four bytes, the last three of them these.
fn ends_with(disk: &mut FileDisk, bytes: &[u8]) -> Result<bool, Failed> {
    let mut end = [0; 3];
    disk.read_at(1, &mut end)?;
    Ok(disk.size()? == 4 && end.as_slice() == bytes)
}

fn keeps_abcd<R: Files<File = File>>(rt: &R, path: &str) -> Result<bool, Failed> {
    write_abcd(&mut FileDisk::writable(rt, path)?)?;
    ends_with(&mut FileDisk::read_only(rt, path)?, b"bcd")
}

// A path for this process in the system's folder for passing files.
fn own_path(rt: &HostRuntime) -> Result<PathBuf, Fail> {
    let name = format!(in rt.alloc(); "hm-disk-test-{}", process::id(rt.process()))?;
    Ok(env::temp_dir(rt)?.join(rt.alloc(), name.as_str())?)
}

#[test]
fn a_file_keeps_its_bytes(rt: HostRuntime) -> Result<(), Fail> {
    let path = own_path(&rt)?;
    let path = path.as_path().as_str();
    assert!(rt; FileDisk::read_only(&rt, path).is_err());
    assert!(rt; matches!(keeps_abcd(&rt, path), Ok(true)));
    fs::remove_file(&rt, path)?;
    Ok(())
}
