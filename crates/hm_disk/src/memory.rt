//! A disk in memory. For proofs it keeps all that it has been through.
ghost use Rattle.std.specs.Prelude.{◌≡◌, ◌+◌, ◌≤◌, ◌<◌, ◌↔◌, ◌⊎◌, List, ℕ, length, take, drop, vec_len, vec_capacity, IsErr, IfOk, OnOk, OnErr, Contains};
ghost use Rattle.std.proofs.Common.{inl, refl};
ghost use Rattle.hm_ports.specs.Faults.{Rose};
ghost use Rattle.hm_disk.specs.Disk.{Torn, CutOrWhole, Follows, Only, RisesBy};
ghost use Rattle.hm_disk.specs.Chosen.{chosen};
ghost use Rattle.hm_disk.specs.Memory.{mem_image, mem_since, MemElapses, mem_counts_now, mem_only_now};
ghost use Rattle.hm_disk.specs.Memory.{new_disk, after_call, after_failure, after_failed_change};
ghost use Rattle.hm_disk.specs.Memory.{after_write, after_cut, after_sync, after_stop};

use crate::Disk;
use crate::past::{Past, Step};
use crate::room::{grow, mark, overlay, put, shade};
use hm_ports::{Failed, next_call_fails, raise};
use std::alloc::{AllocError, Global};
use std::marker::Model;

/// A disk in memory, which fails at the calls that it is told to and where a write goes past its
/// room. A call that fails changes nothing but the counts.
#[derive(Drop)]
pub struct MemDisk {
    bytes: Vec<u8>,
    // The content of the last sync.
    synced: Vec<u8>,
    // A 1 for each byte that isn't synced.
    dirty: Vec<u8>,
    room: u64,
    fails: Vec<u64>,
    calls: u64,
    faults: u64,
    changes: u64,
    past: Past,
}

impl Model for MemDisk {
    ghost use Rattle.hm_disk.specs.Memory.{MemView};

    ghost Value = { MemView };

    ghost use Rattle.hm_disk.specs.Fields.{view_of, IsMemDisk};

    ghost view = { view_of };

    ghost invariant = { IsMemDisk };
}

/// What a stop leaves.
#[derive(Clone, Copy, Debug, PartialEq, Eq)]
pub enum Choice {
    /// The content of the last sync.
    Synced,
    /// What a read gives.
    AsRead,
    /// What a read gives, with this byte in place of each that isn't synced.
    Fill(u8),
}

impl MemDisk {
    /// A disk with these bytes, all of them synced, and room for `room` bytes in all. The calls of
    /// the five methods are numbered together, from 0; those in `fails` fail. No later call takes
    /// memory.
    pub fn new(
        alloc: Global,
        room: u64,
        bytes: Vec<u8>,
        fails: Vec<u64>,
    ) -> Result<MemDisk, AllocError>
        requires { vec_len bytes ≤ room }
        ensures { IfOk result (λ d. d ≡ new_disk room bytes.items fails.items) }
    {
        let past = Past::new().then(&Step::Synced(&bytes));
        let mut content = Vec::with_capacity(alloc, room as usize)?;
        put(&mut content, &bytes);
        let mut synced = Vec::with_capacity(alloc, room as usize)?;
        put(&mut synced, &bytes);
        let mut dirty = Vec::with_capacity(alloc, room as usize)?;
        grow(&mut dirty, bytes.len(), 0);
        Ok(MemDisk {
            bytes: content,
            synced,
            dirty,
            room,
            fails,
            calls: 0,
            faults: 0,
            changes: 0,
            past,
        })
    }

    /// What a read of all would give.
    pub fn bytes(&self) -> &[u8]
        ensures { result.now ≡ self.now.bytes }
    {
        &self.bytes
    }

    /// The disk after a stop, with its room and its counts.
    pub fn stop(self, choice: Choice) -> MemDisk
        ensures chosen { result.bytes ≡ chosen choice self.bytes self.synced self.dirty }
        ensures image { mem_image self result.bytes }
        ensures only { (c : List ℕ) → mem_image result c → c ≡ result.bytes }
        ensures rest { result ≡ after_stop result.bytes self }
    {
        let mut disk = self;
        pick(choice, &mut disk.bytes, &disk.synced, &disk.dirty);
        disk.synced.clear();
        put(&mut disk.synced, &disk.bytes);
        disk.dirty.clear();
        grow(&mut disk.dirty, disk.bytes.len(), 0);
        disk.past = Past::new().then(&Step::Synced(&disk.bytes));
        disk
    }
}

// Makes the bytes what a stop leaves by choice.
fn pick(choice: Choice, bytes: &mut Vec<u8>, synced: &[u8], dirty: &[u8])
    requires room { length synced.now ≤ vec_capacity bytes.old }
    requires marks { length dirty.now ≡ vec_len bytes.old }
    ensures capacity { vec_capacity bytes.old ≤ vec_capacity bytes.new }
    ensures bytes { bytes.new.items ≡ chosen choice bytes.old.items synced.now dirty.now }
{
    match choice {
        Choice::Synced => {
            bytes.clear();
            put(bytes, synced);
        }
        Choice::AsRead => {}
        Choice::Fill(byte) => shade(bytes, dirty, byte),
    }
}

impl Disk for MemDisk {
    type Setting = ();

    ghost tells = { Unit {0} };

    ghost seen = { λ d. d.bytes };

    ghost image = { mem_image };

    ghost moment = { λ d. length d.events };

    ghost left_since = { mem_since };

    ghost faults = { λ d. d.faults };

    ghost changes = { λ d. d.changes };

    ghost setting = { λ _. tt };

    ghost reads_now = { λ d tells. inl refl };

    ghost counts_now = { mem_counts_now };

    ghost only_now = { mem_only_now };

    fn size(&mut self) -> Result<u64, Failed>
        ensures size { IfOk result (λ n. n ≡ length self.old.bytes) }

        // It fails, and counts it, exactly at the calls that are to fail.
        ensures fails { IsErr result ↔ Contains self.old.fails self.old.calls }
        ensures ok { OnOk result (self.new ≡ after_call self.old) }
        ensures err { OnErr result (self.new ≡ after_failure self.old) }

        ensures seen { self.new.bytes ≡ self.old.bytes }
        ensures images { (c : List ℕ) → mem_image self.new c ↔ mem_image self.old c }
        ensures moment { length self.new.events ≡ length self.old.events }
        ensures time { MemElapses self.old self.new }
        ensures fault { OnErr result (Rose self.old.faults self.new.faults) }
        ensures faults { self.old.faults ≤ self.new.faults }
        ensures no_fault { OnOk result (self.new.faults ≡ self.old.faults) }
        ensures changes { self.new.changes ≡ self.old.changes }
    {
        if next_call_fails(&mut self.calls, &self.fails) {
            raise(&mut self.faults);
            return Err(Failed);
        }
        Ok(self.bytes.len() as u64)
    }

    fn read_at(&mut self, at: u64, into: &mut [u8]) -> Result<(), Failed>
        requires { at + length into.old ≤ length self.old.bytes }
        ensures read { OnOk result (into.new ≡ take (length into.old) (drop at self.old.bytes)) }

        // It fails, and counts it, exactly at the calls that are to fail.
        ensures fails { IsErr result ↔ Contains self.old.fails self.old.calls }
        ensures ok { OnOk result (self.new ≡ after_call self.old) }
        ensures err { OnErr result (self.new ≡ after_failure self.old) }

        ensures seen { self.new.bytes ≡ self.old.bytes }
        ensures images { (c : List ℕ) → mem_image self.new c ↔ mem_image self.old c }
        ensures moment { length self.new.events ≡ length self.old.events }
        ensures time { MemElapses self.old self.new }
        ensures fault { OnErr result (Rose self.old.faults self.new.faults) }
        ensures faults { self.old.faults ≤ self.new.faults }
        ensures no_fault { OnOk result (self.new.faults ≡ self.old.faults) }
        ensures changes { self.new.changes ≡ self.old.changes }
    {
        if next_call_fails(&mut self.calls, &self.fails) {
            raise(&mut self.faults);
            return Err(Failed);
        }
        let start = at as usize;
        into.copy_from_slice(&self.bytes[start..start + into.len()]);
        Ok(())
    }

    fn write_at(&mut self, at: u64, bytes: &[u8]) -> Result<(), Failed>
        requires place { at ≤ length self.old.bytes }
        requires some { 0 < length bytes.now }

        // It fails, and counts it, exactly at the calls that are to fail and past the room.
        ensures fails { IsErr result ↔
            (Contains self.old.fails self.old.calls ⊎ (self.old.room < at + length bytes.now)) }
        ensures ok { OnOk result (self.new ≡ after_write at bytes.now self.old) }
        ensures err { OnErr result (self.new ≡ after_failed_change self.old) }

        ensures part { Torn at (length bytes.now) self.old.bytes self.new.bytes }
        ensures crash { Follows (Torn at (length bytes.now))
            (mem_image self.old) (mem_image self.new) }
        ensures time { MemElapses self.old self.new }
        ensures fault { OnErr result (Rose self.old.faults self.new.faults) }
        ensures faults { self.old.faults ≤ self.new.faults }
        ensures no_fault { OnOk result (self.new.faults ≡ self.old.faults) }
        ensures changes { RisesBy 1 self.old.changes self.new.changes }
    {
        raise(&mut self.changes);
        if next_call_fails(&mut self.calls, &self.fails) || bytes.len() as u64 > self.room - at {
            raise(&mut self.faults);
            return Err(Failed);
        }
        overlay(&mut self.bytes, at as usize, bytes);
        mark(&mut self.dirty, at as usize, bytes.len());
        self.past = self.past.then(&Step::Wrote(at, bytes));
        Ok(())
    }

    fn cut(&mut self, size: u64) -> Result<(), Failed>
        requires place { size ≤ length self.old.bytes }

        // It fails, and counts it, exactly at the calls that are to fail.
        ensures fails { IsErr result ↔ Contains self.old.fails self.old.calls }
        ensures ok { OnOk result (self.new ≡ after_cut size self.old) }
        ensures err { OnErr result (self.new ≡ after_failed_change self.old) }

        ensures part { CutOrWhole size self.old.bytes self.new.bytes }
        ensures crash { Follows (CutOrWhole size) (mem_image self.old) (mem_image self.new) }
        ensures time { MemElapses self.old self.new }
        ensures fault { OnErr result (Rose self.old.faults self.new.faults) }
        ensures faults { self.old.faults ≤ self.new.faults }
        ensures no_fault { OnOk result (self.new.faults ≡ self.old.faults) }
        ensures changes { RisesBy 1 self.old.changes self.new.changes }
    {
        raise(&mut self.changes);
        if next_call_fails(&mut self.calls, &self.fails) {
            raise(&mut self.faults);
            return Err(Failed);
        }
        self.bytes.truncate(size as usize);
        self.dirty.truncate(size as usize);
        self.past = self.past.then(&Step::Cut(size));
        Ok(())
    }

    fn sync(&mut self) -> Result<(), Failed>
        ensures durable { OnOk result (Only self.old.bytes (mem_image self.new)) }

        // It fails, and counts it, exactly at the calls that are to fail.
        ensures fails { IsErr result ↔ Contains self.old.fails self.old.calls }
        ensures ok { OnOk result (self.new ≡ after_sync self.old) }
        ensures err { OnErr result (self.new ≡ after_failure self.old) }

        ensures seen { self.new.bytes ≡ self.old.bytes }
        ensures crash { (c : List ℕ) → mem_image self.new c → mem_image self.old c }
        ensures time { MemElapses self.old self.new }
        ensures fault { OnErr result (Rose self.old.faults self.new.faults) }
        ensures faults { self.old.faults ≤ self.new.faults }
        ensures no_fault { OnOk result (self.new.faults ≡ self.old.faults) }
        ensures changes { self.new.changes ≡ self.old.changes }
    {
        if next_call_fails(&mut self.calls, &self.fails) {
            raise(&mut self.faults);
            return Err(Failed);
        }
        self.synced.clear();
        put(&mut self.synced, &self.bytes);
        self.dirty.clear();
        grow(&mut self.dirty, self.bytes.len(), 0);
        self.past = self.past.then(&Step::Synced(&self.bytes));
        Ok(())
    }
}
