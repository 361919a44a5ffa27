//! A journal that is open.
ghost use Rattle.std.specs.Prelude.{◌≡◌, ◌≢◌, ◌+◌, ◌^◌, ◌<◌, ◌≤◌, ◌++◌, ◌∷◌, [], length, nat_le, vec_len, vec_capacity, All, MatchResult, OnOk, OnErr, IsErrOf, IsTrue, ◌⊎◌, Some, None, false};
ghost use Rattle.hm_ports.specs.Faults.{Rose};
ghost use Rattle.hm_data.specs.declared.entry.Entry.{Entry as EntryValue};
ghost use Rattle.hm_entry.specs.Fits.{EntryFits};
ghost use Rattle.hm_entry.specs.Spelling.{entry as spelling};
ghost use Rattle.hm_hall.specs.declared.fault.Halt.TheVariants as halt_is;
ghost use Rattle.hm_hall.specs.Recording.{CanBeRecorded, Accepts, Passes, Records, bytes_of, full_at, past_in, with_next};
ghost use Rattle.hm_model.specs.Image.{counted};
ghost use Rattle.hm_model.specs.Laws.{is_part};
ghost use Rattle.hm_journal.specs.Stored.{AllStored, IsStored};
ghost use Rattle.hm_journal.specs.Since.{Since};

use crate::limits::Limits;
use crate::next::Next;
use crate::opened::Opening;
use crate::origin::Origin;
use hm_data::Entry;
use hm_disk::Disk;
use hm_entry::{encode_into, length};
use hm_hall::{Halt, RecordFault, Recorder, parts_stand_first};
use hm_log::Log;
use std::alloc::{AllocError, Global};
use std::marker::Model;

/// The entries of a journal, in memory as they are spelled and on a disk. Contracts see the disk, and what was recorded.
#[derive(Drop)]
pub struct Journal<D: Disk> {
    pub(crate) log: Log<D>,
    pub(crate) frames: Vec<Vec<u8>>,
    // The size of a log of the frames, which the log itself tells only while it isn't stalled.
    pub(crate) bytes: u64,
    // Of the journal's base, which is among the frames.
    pub(crate) origin: Origin,
    pub(crate) next: Option<Next>,
    pub(crate) tail: Option<Vec<u8>>,
    pub(crate) halted: Option<Halt>,
    pub(crate) limits: Limits,
    // For proofs alone.
    pub(crate) opened: Opening<D>,
}

impl<D: Disk> Model for Journal<D> {
    ghost use Rattle.std.specs.Prelude.{vec_len, vec_capacity};
    ghost use Rattle.hm_journal.specs.View.{JournalView, IsWellKept, entries_in, entry_of, kept_of};
    ghost use Rattle.hm_journal.specs.Since.{Since};

    ghost Value = { JournalView D };

    ghost view = { λ a. record { disk = a.log.disk; opened = a.opened; kept = kept_of a.frames.items a.next a.tail a.halted a.limits; room = vec_capacity a.frames } };

    ghost invariant = { λ a. IsWellKept D.tells (D.image a.log.disk) a.log.frames a.log.bytes a.log.stalled a.next a.tail a.bytes a.origin.parts a.origin.based (vec_len a.frames) (vec_capacity a.frames)
        (kept_of a.frames.items a.next a.tail a.halted a.limits)
        × Since D.Disk a.opened a.log.disk (entries_in a.frames.items) (entry_of a.tail) a.halted };
}

impl<D: Disk> Journal<D> {
    /// Makes an entry that is no part of a base ready to be recorded, in place of one that was. It takes the memory that
    /// recording needs: none for an entry that will be refused.
    pub fn ready(&mut self, alloc: Global, entry: &Entry) -> Result<(), AllocError>
        requires fits { CanBeRecorded entry.now }
        requires other { is_part entry.now ≡ false }
        ensures kept { MatchResult result
            (λ _. self.new.kept ≡ with_next self.old.kept entry.now)
            (λ _. self.new.kept ≡ self.old.kept) }
        ensures last { OnErr result (Accepts self.old.kept entry.now) }
        ensures fits { OnOk result (Accepts self.old.kept entry.now → EntryFits entry.now) }
        ensures disk { self.new.disk ≡ self.old.disk }
        ensures opened { self.new.opened ≡ self.old.opened }
    {
        if self.will_refuse(entry) {
            self.next = Some(Next::refused(entry));
            return Ok(());
        }
        self.frames.reserve(1)?;
        let mut frame = Vec::with_capacity(alloc, length(entry) as usize)?;
        encode_into(entry, &mut frame);
        self.next = Some(Next::framed(entry, frame));
        Ok(())
    }

    /// Whether recording this entry would be refused: the journal is halted, or the entry would pass the hard mark.
    pub fn will_refuse(&self, entry: &Entry) -> bool
        requires { CanBeRecorded entry.now }
        ensures refused { IsTrue result → (self.now.kept.halted ≢ None) ⊎ Passes self.now.kept.hard self.now.kept.entries entry.now }
        ensures accepted { result ≡ false → Accepts self.now.kept entry.now }
        ensures small { result ≡ false → bytes_of self.now.kept.entries + length (spelling entry.now) + 5 < 2 ^ 64 }
    {
        self.halted.is_some() || !fits(self.bytes, length(entry) as usize, self.limits.hard)
    }

    /// Records the entry that is ready, and gives its place behind the base. It takes no memory. At `Ok` the entry is on the
    /// disk. After a fault of the log the disk may hold it or not, until it is opened anew.
    pub fn record_entry(&mut self) -> Result<u64, RecordFault>
        requires { self.old.kept.next ≢ None }

        // What it answers, and what it leaves.
        ensures records { (entry : EntryValue) → self.old.kept.next ≡ Some entry →
            Records self.old.kept entry result self.new.kept }
        ensures fault { IsErrOf result RecordFault.LogFault → Rose (D.faults self.old.disk) (D.faults self.new.disk) }

        ensures quiet { self.old.kept.halted ≢ None → self.new ≡ self.old }

        ensures faults { D.faults self.old.disk ≤ D.faults self.new.disk }
        ensures unwritten { OnErr result (self.new.kept.halted ≢ Some halt_is.LogFault → self.new.disk ≡ self.old.disk) }
        ensures opened { self.new.opened ≡ self.old.opened }
        ensures room { self.new.room ≡ self.old.room }
    {
        if let Some(why) = self.halted {
            return Err(RecordFault::Halted(why));
        }
        let Some(next) = self.next.take() else {
            unreachable!();
        };
        let Some(frame) = next.into_frame() else {
            let bytes = self.bytes;
            self.halted = Some(Halt::JournalFull(bytes));
            return Err(RecordFault::JournalFull(bytes));
        };
        parts_stand_first();
        let place = self.frames.len() as u64 - self.origin.parts;
        if self.log.append(&frame).is_err() {
            self.tail = Some(frame);
            self.halted = Some(Halt::LogFault);
            return Err(RecordFault::LogFault);
        }
        self.bytes += frame.len() as u64 + 5;
        self.frames.push_reserved(frame);
        Ok(place)
    }

    /// The bytes of the journal, where they have reached the soft mark.
    pub fn soft_full(&self) -> Option<u64>
        ensures { result ≡ full_at self.now.kept }
    {
        let bytes = self.bytes();
        if self.limits.soft <= bytes {
            Some(bytes)
        } else {
            None
        }
    }

    /// What halted it. A journal just opened isn't halted, and only a fault that `record_entry` answers halts it.
    pub fn halted(&self) -> Option<Halt>
        ensures halted { result ≡ self.now.kept.halted }
        ensures tail { self.now.kept.tail ≢ None → result ≡ Some halt_is.LogFault }
        ensures fits { All EntryFits self.now.kept.entries }
    {
        self.halted
    }

    /// How many entries are on the disk: all that were recorded, with those that the base stands for in place of its parts.
    /// That sum is below 2^64: a base stands for less than 2^63, and no memory has room for as many frames.
    pub fn durable(&self) -> u64
        ensures count { result ≡ counted (past_in self.now.kept) }
        ensures fits { All EntryFits self.now.kept.entries }
        ensures stored { D.tells → AllStored (D.image self.now.disk) self.now.kept }
        ensures since { Since D.Disk self.now.opened self.now.disk self.now.kept.entries self.now.kept.tail self.now.kept.halted }
    {
        parts_stand_first();
        self.origin.based + (self.frames.len() as u64 - self.origin.parts)
    }

    // How many entries are kept, the parts of a base among them.
    pub(crate) fn count(&self) -> u64
        ensures { result ≡ length self.now.kept.entries }
    {
        self.frames.len() as u64
    }

    /// The size of a log of the recorded entries.
    pub fn bytes(&self) -> u64
        ensures { result ≡ bytes_of self.now.kept.entries }
    {
        self.bytes
    }

    /// Gives the disk back.
    pub fn into_disk(self) -> D
        ensures disk { result ≡ self.disk }
        ensures reads { D.tells → IsStored self.kept (D.seen result) }
        ensures stored { D.tells → AllStored (D.image result) self.kept }
        ensures since { Since D.Disk self.opened result self.kept.entries self.kept.tail self.kept.halted }
    {
        let Journal {
            log,
            frames: _,
            bytes: _,
            origin: _,
            next: _,
            tail: _,
            halted: _,
            limits: _,
            opened: _,
        } = self;
        log.into_disk()
    }
}

// Whether a frame of this length, and 5 bytes more, stay below the mark or reach it.
fn fits(bytes: u64, length: usize, hard: u64) -> bool
    ensures { result ≡ nat_le (bytes + length + 5) hard }
{
    u128::from(bytes) + length as u128 + 5 <= u128::from(hard)
}

impl<D: Disk> Recorder for Journal<D> {
    type Opened = Opening<D>;

    ghost kept = { λ journal. journal.kept };

    ghost faults = { λ journal. D.faults journal.disk };

    ghost opened = { λ journal. journal.opened };

    ghost room = { λ journal. journal.room };

    fn will_refuse(&self, entry: &Entry) -> bool {
        Journal::will_refuse(self, entry)
    }

    fn ready(&mut self, alloc: Global, entry: &Entry) -> Result<(), AllocError> {
        Journal::ready(self, alloc, entry)
    }

    fn record_entry(&mut self) -> Result<u64, RecordFault> {
        Journal::record_entry(self)
    }

    fn soft_full(&self) -> Option<u64> {
        Journal::soft_full(self)
    }

    fn halted(&self) -> Option<Halt> {
        Journal::halted(self)
    }
}
