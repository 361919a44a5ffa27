//! A disk over a file of the system.
ghost use Rattle.std.specs.Prelude.{◌≡◌, ◌+◌, ◌-◌, ◌^◌, ◌≤◌, [], min, max, IfOk, IfSome, OnOk, OnErr};
ghost use Rattle.hm_ports.specs.Faults.{raised, Rose};
ghost use Rattle.hm_disk.specs.Disk.{RisesBy};
ghost use Rattle.hm_disk.specs.File.{IsOwn};

use crate::Disk;
use hm_ports::{Failed, raise};
use std::fs::{File, Files, Metadata, OpenOptions};
use std::io::ErrorKind;
use std::marker::Model;
use std::os::fd::AsRawFd;
use std::os::unix::fs::FileExt;
use std::path::Path;
use std::{fs, io};

/// A disk over a file. It counts each error of the system. It tells no content and no image: what its
/// calls do to the file is trusted.
///
/// The file is a regular one, and its descriptor is none of those that the standard streams have. A
/// sync that fails leaves no byte of it clean in the system's cache.
#[derive(Drop)]
pub struct FileDisk {
    file: File,
    // What was written since the last sync that succeeded.
    unsynced: Stretch,
    // Since then it was made, cut or written from its start, or it was only opened.
    remade: bool,
    faults: u64,
    changes: u64,
}

impl Model for FileDisk {
    ghost use Rattle.hm_disk.specs.File.{FileView, IsOwn};

    ghost Value = { FileView };

    ghost view = { λ d. record { faults = d.faults; changes = d.changes } };

    ghost invariant = { λ d. IsOwn d.file };
}

impl FileDisk {
    /// Opens a file for reading and writing, with its lock, and makes it where there is none. It fails
    /// where another program has the lock.
    ///
    /// Where it makes the file it syncs the folder too, so that a stop of the machine leaves the file
    /// in it, and where that fails so does this. It makes nothing through a link that leads nowhere.
    pub fn writable<R: Files<File = File>>(rt: &R, path: &str) -> Result<FileDisk, Failed>
        ensures { IfOk result (λ d. d ≡ record { faults = 0; changes = 0 }) }
    {
        let Some(file) = open_or_make(rt, path) else {
            return Err(Failed);
        };
        if file.try_lock().is_err() {
            return Err(Failed);
        }
        Ok(FileDisk::over(file))
    }

    /// Opens a file for reading alone. Where there is none it fails. It takes no lock.
    pub fn read_only<R: Files<File = File>>(rt: &R, path: &str) -> Result<FileDisk, Failed>
        ensures { IfOk result (λ d. d ≡ record { faults = 0; changes = 0 }) }
    {
        let Some(found) = fs::metadata(rt, path).ok() else {
            return Err(Failed);
        };
        match open_own(rt, path, &found, OpenOptions::new().read(true)) {
            Some(file) => Ok(FileDisk::over(file)),
            None => Err(Failed),
        }
    }

    fn over(file: File) -> FileDisk
        requires { IsOwn file }
        ensures { result ≡ record { faults = 0; changes = 0 } }
    {
        FileDisk {
            file,
            unsynced: Stretch::none(),
            remade: true,
            faults: 0,
            changes: 0,
        }
    }
}

// Opens a file for reading and writing, and makes it where there is none.
fn open_or_make<R: Files<File = File>>(rt: &R, path: &str) -> Option<File>
    ensures { IfSome result IsOwn }
{
    match fs::metadata(rt, path) {
        Ok(found) => open_own(rt, path, &found, OpenOptions::new().read(true).write(true)),
        Err(error) if error.kind() == ErrorKind::NotFound => make(rt, path),
        Err(_) => None,
    }
}

// Opens a file that was found. What is no regular file isn't opened at all, since that alone may wait or
// act.
fn open_own<R: Files<File = File>>(
    rt: &R,
    path: &str,
    found: &Metadata,
    how: &OpenOptions,
) -> Option<File>
    ensures { IfSome result IsOwn }
{
    if !found.is_file() {
        return None;
    }
    let file = own(how.open(rt, path).ok()?)?;
    if !file.metadata().ok()?.is_file() {
        return None;
    }
    Some(file)
}

// Makes a file, and syncs the folder that it is in. It opens the folder first, so that it makes no file
// where it can't.
fn make<R: Files<File = File>>(rt: &R, path: &str) -> Option<File>
    ensures { IfSome result IsOwn }
{
    let folder = own(
        OpenOptions::new()
            .read(true)
            .open(rt, folder_of(path))
            .ok()?,
    )?;
    let made = OpenOptions::new()
        .read(true)
        .write(true)
        .create_new(true)
        .open(rt, path);
    let file = own(made.ok()?)?;
    if folder.sync_all().is_err() {
        let _ = fs::remove_file(rt, path);
        return None;
    }
    Some(file)
}

// The folder that a file is in.
fn folder_of(path: &str) -> Path<'_> {
    match Path::new(path).parent() {
        Some(folder) if !folder.as_str().is_empty() => folder,
        _ => Path::new("."),
    }
}

// The file, where its descriptor isn't one of the standard streams.
fn own(file: File) -> Option<File>
    ensures { IfSome result IsOwn }
{
    if file.as_raw_fd() < 3 {
        return None;
    }
    Some(file)
}

// The places from one on, and before another.
#[derive(Clone, Copy)]
struct Stretch {
    from: u64,
    to: u64,
}

impl Stretch {
    fn none() -> Stretch {
        Stretch {
            from: u64::MAX,
            to: 0,
        }
    }

    // With so many places more, from this one on.
    fn with(self, at: u64, count: usize) -> Stretch
        ensures from { result.from ≡ min self.from at }
        ensures to { result.to ≡ max self.to (min (at + count) (2 ^ 64 - 1)) }
    {
        Stretch {
            from: self.from.min(at),
            to: self.to.max(at.saturating_add(count as u64)),
        }
    }
}

// Writes what stands in a file once more, as far as it can. A sync that fails may leave what it didn't
// write clean in the system's cache, where a later one passes it by.
fn write_again(file: &File, unsynced: Stretch) {
    let Ok(found) = file.metadata() else {
        return;
    };
    let end = unsynced.to.min(found.len());
    let mut piece = [0; 4096];
    let mut at = unsynced.from;
    while at < end {
        let count = (end - at).min(4096);
        let part = &mut piece[..count as usize];
        if file.read_exact_at(part, at).is_ok() {
            let _ = file.write_all_at(part, at);
        }
        at += count;
    }
}

// Counts an error.
fn counted<T: Drop>(faults: &mut u64, answer: io::Result<T>) -> Result<T, Failed>
    ensures later { faults.old ≤ faults.new }
    ensures ok { OnOk result (faults.new ≡ faults.old) }
    ensures err { OnErr result (faults.new ≡ raised faults.old) }
{
    match answer {
        Ok(value) => Ok(value),
        Err(_) => {
            raise(faults);
            Err(Failed)
        }
    }
}

impl Disk for FileDisk {
    type Setting = ();

    ghost tells = { ⊥ };

    ghost seen = { λ _. [] };

    ghost image = { λ _ _. ⊥ };

    ghost moment = { λ _. 0 };

    ghost left_since = { λ _ _ _. ⊥ };

    ghost faults = { λ d. d.faults };

    ghost changes = { λ d. d.changes };

    ghost setting = { λ _. tt };

    ghost reads_now = { λ _ tells. tells };

    ghost counts_now = { λ _ _ _ _ now. now };

    ghost only_now = { λ _ _ left. left };

    fn size(&mut self) -> Result<u64, Failed>
        ensures ok { OnOk result (self.new ≡ self.old) }
        ensures err { OnErr result (self.new ≡
            record self.old { faults = raised self.old.faults }) }
        ensures fault { OnErr result (Rose self.old.faults self.new.faults) }
        ensures faults { self.old.faults ≤ self.new.faults }
        ensures no_fault { OnOk result (self.new.faults ≡ self.old.faults) }
        ensures changes { self.new.changes ≡ self.old.changes }
    {
        let found = self.file.metadata();
        Ok(counted(&mut self.faults, found)?.len())
    }

    fn read_at(&mut self, at: u64, into: &mut [u8]) -> Result<(), Failed>
        ensures ok { OnOk result (self.new ≡ self.old) }
        ensures err { OnErr result (self.new ≡
            record self.old { faults = raised self.old.faults }) }
        ensures fault { OnErr result (Rose self.old.faults self.new.faults) }
        ensures faults { self.old.faults ≤ self.new.faults }
        ensures no_fault { OnOk result (self.new.faults ≡ self.old.faults) }
        ensures changes { self.new.changes ≡ self.old.changes }
    {
        let answer = self.file.read_exact_at(into, at);
        counted(&mut self.faults, answer)
    }

    fn write_at(&mut self, at: u64, bytes: &[u8]) -> Result<(), Failed>
        ensures ok { OnOk result (self.new ≡
            record self.old { changes = raised self.old.changes }) }
        ensures err { OnErr result (self.new ≡
            record { faults = raised self.old.faults; changes = raised self.old.changes }) }
        ensures fault { OnErr result (Rose self.old.faults self.new.faults) }
        ensures faults { self.old.faults ≤ self.new.faults }
        ensures no_fault { OnOk result (self.new.faults ≡ self.old.faults) }
        ensures changes { RisesBy 1 self.old.changes self.new.changes }
    {
        raise(&mut self.changes);
        self.unsynced = self.unsynced.with(at, bytes.len());
        if at == 0 {
            self.remade = true;
        }
        let answer = self.file.write_all_at(bytes, at);
        counted(&mut self.faults, answer)
    }

    fn cut(&mut self, size: u64) -> Result<(), Failed>
        ensures ok { OnOk result (self.new ≡
            record self.old { changes = raised self.old.changes }) }
        ensures err { OnErr result (self.new ≡
            record { faults = raised self.old.faults; changes = raised self.old.changes }) }
        ensures fault { OnErr result (Rose self.old.faults self.new.faults) }
        ensures faults { self.old.faults ≤ self.new.faults }
        ensures no_fault { OnOk result (self.new.faults ≡ self.old.faults) }
        ensures changes { RisesBy 1 self.old.changes self.new.changes }
    {
        raise(&mut self.changes);
        self.remade = true;
        let answer = self.file.set_len(size);
        counted(&mut self.faults, answer)
    }

    fn sync(&mut self) -> Result<(), Failed>
        ensures ok { OnOk result (self.new ≡ self.old) }
        ensures err { OnErr result (self.new ≡
            record self.old { faults = raised self.old.faults }) }
        ensures fault { OnErr result (Rose self.old.faults self.new.faults) }
        ensures faults { self.old.faults ≤ self.new.faults }
        ensures no_fault { OnOk result (self.new.faults ≡ self.old.faults) }
        ensures changes { self.new.changes ≡ self.old.changes }
    {
        let answer = if self.remade {
            self.file.sync_all()
        } else {
            self.file.sync_data()
        };
        if answer.is_err() {
            write_again(&self.file, self.unsynced);
        } else {
            self.unsynced = Stretch::none();
            self.remade = false;
        }
        counted(&mut self.faults, answer)
    }
}
