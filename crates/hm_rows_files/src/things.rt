//! What is no regular file, where a system has it at a place that is known, and files by their descriptors.
use crate::files::{is_refused, path_of, reads, writes};
use hm_disk::FileDisk;
use std::alloc::AllocError;
use std::fs::File;
use std::os::fd::AsRawFd;
use std::test::Fail;
use std::{fs, io};

// Folders, devices, pipes and sockets. A system need not have each, and a standard stream may be a regular file.
const PLACES: [&str; 27] = [
    ".",
    "..",
    "/proc",
    "/proc/self",
    "/proc/self/fd",
    "/tmp/.",
    "/dev/full",
    "/dev/random",
    "/dev/urandom",
    "/dev/tty",
    "/dev/ptmx",
    "/dev/loop0",
    "/dev/ram0",
    "/dev/log",
    "/dev/initctl",
    "/run/initctl",
    "/run/dbus/system_bus_socket",
    "/run/systemd/journal/socket",
    "/run/systemd/inaccessible/dir",
    "/run/systemd/inaccessible/chr",
    "/run/systemd/inaccessible/blk",
    "/run/systemd/inaccessible/fifo",
    "/run/systemd/inaccessible/sock",
    "/dev/fd",
    "/dev/stdin",
    "/dev/stdout",
    "/dev/stderr",
];

// Whether something that is no regular file is there.
fn is_other(rt: &HostRuntime, path: &str) -> bool {
    match fs::metadata(rt, path) {
        Ok(found) => !found.is_file(),
        Err(_) => false,
    }
}

#[test]
fn what_is_no_regular_file_is_refused(rt: HostRuntime) -> Result<(), Fail> {
    for path in PLACES {
        let refused = !is_other(&rt, path) || is_refused(&rt, path);
        assert!(rt; refused, "{path}");
    }
    Ok(())
}

// A path to what a descriptor is open on.
fn path_by_descriptor(rt: &HostRuntime, file: &File) -> Result<String, AllocError> {
    format!(in rt.alloc(); "/proc/self/fd/{}", file.as_raw_fd())
}

// Whether a folder or a device is refused by its descriptor too.
fn is_refused_by_descriptor(rt: &HostRuntime, path: &str) -> io::Result<bool> {
    let file = File::open(rt, path)?;
    let other = path_by_descriptor(rt, &file)?;
    Ok(is_refused(rt, &other))
}

#[test]
fn a_link_to_a_descriptor_is_judged_by_what_it_leads_to(rt: HostRuntime) -> Result<(), Fail> {
    for path in ["/", "/proc", "/dev/null", "/dev/zero"] {
        assert!(rt; is_refused_by_descriptor(&rt, path)?, "{path}");
    }
    Ok(())
}

// Whether another path opens to be read alone while a file is open for writing, and for writing then.
fn is_one_writer(rt: &HostRuntime, path: &str, other: &str) -> bool {
    let first = FileDisk::writable(rt, path);
    let is_read = reads(rt, other);
    let is_written = writes(rt, other);
    drop(first);
    is_read && !is_written && reads(rt, other) && writes(rt, other)
}

// The same by the path of a descriptor.
fn is_one_writer_by_descriptor(rt: &HostRuntime, path: &str) -> io::Result<bool> {
    let file = File::open(rt, path)?;
    let descriptor = path_by_descriptor(rt, &file)?;
    Ok(is_one_writer(rt, path, &descriptor))
}

// Whether a new file has one writer by its path, by a link to it and by another name, which are made and removed.
fn has_one_writer(rt: &HostRuntime, path: &str, link: &str, name: &str) -> io::Result<bool> {
    fs::write(rt, path, b"HMASTERJ\x01-")?;
    std::os::unix::fs::symlink(rt, path, link)?;
    fs::hard_link(rt, path, name)?;
    let by_descriptor = is_one_writer_by_descriptor(rt, path)?;
    let by_link = is_one_writer(rt, path, link);
    let by_name = is_one_writer(rt, path, name);
    fs::remove_file(rt, link)?;
    fs::remove_file(rt, name)?;
    fs::remove_file(rt, path)?;
    Ok(by_descriptor && by_link && by_name)
}

// The same at the paths of this process.
fn has_one_writer_here(rt: &HostRuntime, path: &str) -> Result<bool, Fail> {
    let link = path_of(rt, "paths-link")?;
    let name = path_of(rt, "paths-name")?;
    let link = link.as_path().as_str();
    Ok(has_one_writer(rt, path, link, name.as_path().as_str())?)
}

#[test]
fn a_file_has_one_writer_by_all_its_paths(rt: HostRuntime) -> Result<(), Fail> {
    let path = path_of(&rt, "paths")?;
    assert!(rt; has_one_writer_here(&rt, path.as_path().as_str())?);
    Ok(())
}
