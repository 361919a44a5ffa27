//! A recorder that keeps its entries in a list.
ghost use Rattle.std.specs.Prelude.{◌≡◌, ◌+◌, ◌≤◌, nat_le, IfOk, IsTrue, false};
ghost use Rattle.hm_data.specs.declared.entry.Entry.TheVariants as entry_is;
ghost use Rattle.hm_entry.specs.Fits.{EntryFits};
ghost use Rattle.hm_hall.specs.Recording.{Accepts, CanBeRecorded, entries_of};
ghost use Rattle.hm_model.specs.Base.{AreSheets};
ghost use Rattle.hm_model.specs.Laws.{is_part};
ghost use Rattle.hm_rows_exec.specs.Keeping.{IsBegun, IsKeptAlone};

use hm_data::{Entry, Sheet};
use hm_disk::Anchor;
use hm_entry::{encode_into, length};
use hm_frames::entries_fit_frames;
use hm_hall::{Halt, RecordFault, Recorder, parts_stand_first};
use hm_names::{Copied, List};
use std::alloc::{AllocError, Global};
use std::marker::Model;
use std::mem;

/// The marks of the bytes that a log of the entries would have, and how many entries are recorded before the list fails.
#[derive(Clone, Copy)]
pub(crate) struct Bounds {
    pub(crate) soft: u64,
    pub(crate) hard: u64,
    pub(crate) left: u64,
}

/// Bounds that are never met.
pub(crate) const WIDE: Bounds = Bounds {
    soft: u64::MAX,
    hard: u64::MAX,
    left: u64::MAX,
};

/// Entries in a list, and how many bytes a log of them would have. Contracts see what was recorded.
pub(crate) struct Kept {
    entries: Vec<Entry>,
    bytes: u64,
    // For proofs alone.
    next: Option<Anchor<Entry>>,
    // The entry that is ready, where it isn't refused.
    copy: Option<Entry>,
    tail: Option<Entry>,
    halted: Option<Halt>,
    soft: u64,
    hard: u64,
    left: u64,
}

impl Model for Kept {
    ghost use Rattle.std.specs.Prelude.{option_map, vec_capacity, vec_len};
    ghost use Rattle.hm_hall.specs.Recording.{Recording};
    ghost use Rattle.hm_rows_exec.specs.Keeping.{IsWellKept};

    ghost Value = { Recording };

    ghost view = { λ k. record { entries = k.entries.items; next = option_map (λ a. a.disk) k.next; tail = k.tail; halted = k.halted; soft = k.soft; hard = k.hard } };

    ghost invariant = { λ k. IsWellKept (record { entries = k.entries.items; next = option_map (λ a. a.disk) k.next; tail = k.tail; halted = k.halted; soft = k.soft; hard = k.hard }) k.copy k.bytes (vec_len k.entries) (vec_capacity k.entries) };
}

// A copy of an entry, which is spelled once.
fn spelled(alloc: Global, entry: &Entry) -> Result<Entry, AllocError>
    requires { CanBeRecorded entry.now }
    ensures same { IfOk result (λ copy. copy ≡ entry.now) }
    ensures fits { IfOk result EntryFits }
{
    let mut frame = Vec::with_capacity(alloc, length(entry) as usize)?;
    encode_into(entry, &mut frame);
    drop(frame);
    entry.copy(alloc)
}

// The entry with which a journal of these sheets begins.
fn start(alloc: Global, sheets: &List<Sheet>) -> Result<Entry, AllocError>
    ensures { IfOk result (λ entry. entry ≡ entry_is.Start sheets.now) }
{
    let sheets = sheets.copy(alloc)?;
    Ok(Entry::Start { sheets })
}

// Whether an entry whose spelling has this length, and 5 bytes more, stay below the mark or reach it.
fn fits(bytes: u64, length: u64, hard: u64) -> bool
    ensures { result ≡ nat_le (bytes + length + 5) hard }
{
    u128::from(bytes) + u128::from(length) + 5 <= u128::from(hard)
}

impl Kept {
    // The list with this one entry.
    fn of(alloc: Global, entry: &Entry, bounds: Bounds) -> Result<Kept, AllocError>
        requires fits { CanBeRecorded entry.now }
        requires other { is_part entry.now ≡ false }
        ensures { IfOk result (IsKeptAlone entry.now) }
    {
        let mut entries = Vec::new(alloc);
        entries.push(spelled(alloc, entry)?)?;
        Ok(Kept {
            entries,
            bytes: length(entry) + 16,
            next: None,
            copy: None,
            tail: None,
            halted: None,
            soft: bounds.soft,
            hard: bounds.hard,
            left: bounds.left,
        })
    }

    /// The list with which the journal of these sheets begins.
    pub(crate) fn begin(
        alloc: Global,
        sheets: &List<Sheet>,
        bounds: Bounds,
    ) -> Result<Kept, AllocError>
        requires { AreSheets sheets.now }
        ensures { IfOk result (IsBegun sheets.now) }
    {
        entries_fit_frames();
        let entry = start(alloc, sheets)?;
        let kept = Kept::of(alloc, &entry, bounds);
        drop(entry);
        kept
    }

    /// The entries that were recorded.
    pub(crate) fn entries(&self) -> &[Entry]
        ensures { result.now ≡ entries_of self.now }
    {
        self.entries.as_slice()
    }

    pub(crate) fn end(self) {
        let Kept {
            entries,
            bytes: _,
            next,
            copy,
            tail,
            halted: _,
            soft: _,
            hard: _,
            left: _,
        } = self;
        drop(entries);
        drop(next);
        drop(copy);
        drop(tail);
    }

    fn refuses(&self, entry: &Entry) -> bool
        requires { CanBeRecorded entry.now }
        ensures refused { IsTrue result → Accepts self.now entry.now → ⊥ }
        ensures accepted { result ≡ false → Accepts self.now entry.now }
    {
        self.halted.is_some() || !fits(self.bytes, length(entry), self.hard)
    }
}

impl Recorder for Kept {
    ghost use Rattle.hm_rows_exec.specs.Keeping.{faults_in};

    type Opened = u64;

    ghost kept = { λ list. list };

    ghost faults = { λ list. faults_in list.halted };

    ghost opened = { λ list. list.hard };

    ghost room = { λ list. list.hard };

    fn will_refuse(&self, entry: &Entry) -> bool {
        self.refuses(entry)
    }

    fn ready(&mut self, alloc: Global, entry: &Entry) -> Result<(), AllocError> {
        let copy = if self.refuses(entry) {
            None
        } else {
            self.entries.reserve(1)?;
            Some(spelled(alloc, entry)?)
        };
        drop(mem::replace(&mut self.copy, copy));
        self.next = Some(Anchor::at(entry));
        Ok(())
    }

    fn record_entry(&mut self) -> Result<u64, RecordFault> {
        if let Some(why) = self.halted {
            return Err(RecordFault::Halted(why));
        }
        self.next = None;
        let Some(copy) = self.copy.take() else {
            let bytes = self.bytes;
            self.halted = Some(Halt::JournalFull(bytes));
            return Err(RecordFault::JournalFull(bytes));
        };
        if self.left == 0 {
            drop(mem::replace(&mut self.tail, Some(copy)));
            self.halted = Some(Halt::LogFault);
            return Err(RecordFault::LogFault);
        }
        let number = self.entries.len() as u64;
        self.left -= 1;
        self.bytes += length(&copy) + 5;
        self.entries.push_reserved(copy);
        parts_stand_first();
        Ok(number)
    }

    fn soft_full(&self) -> Option<u64> {
        if self.soft <= self.bytes {
            Some(self.bytes)
        } else {
            None
        }
    }

    fn halted(&self) -> Option<Halt> {
        self.halted
    }
}
