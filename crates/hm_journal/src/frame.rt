//! Reads the frames of a log as entries.
ghost use Rattle.std.specs.Prelude.{◌≡◌, ◌<◌, List, length, MatchOption, OnOk, IfOk, IfErr, false};
ghost use Rattle.hm_data.specs.declared.entry.Entry.{Entry as EntryValue};
ghost use Rattle.hm_model.specs.Laws.{is_part};
ghost use Rattle.hm_journal.specs.Judged.{IsBadFrom, Spells, SpellsAt, bad_entry};
ghost use Rattle.hm_journal.specs.Verdict.{IsNoEntry};

use crate::why::JournalWhy;
use hm_data::{Entry, Part};
use hm_entry::{EntryFault, decode};
use hm_log::Frames;
use std::alloc::Global;

// Why the frame of this number spells no entry.
fn fault_of(number: u64, fault: EntryFault) -> JournalWhy
    ensures { result ≡ bad_entry number fault }
{
    match fault {
        EntryFault::Short(at) => JournalWhy::BadEntry { number, at },
        EntryFault::Field(at) => JournalWhy::BadEntry { number, at },
        EntryFault::Rest(at) => JournalWhy::BadEntry { number, at },
        EntryFault::Memory => JournalWhy::Memory,
    }
}

// The entry that the frame of this number spells.
pub(crate) fn read_entry(alloc: Global, frames: &Frames, number: u64) -> Result<Entry, JournalWhy>
    requires { number < length frames.now }
    ensures entry { IfOk result (SpellsAt frames.now number) }
    ensures why { IfErr result (IsBadFrom frames.now number) }
{
    match decode(alloc, frames.frame(number)) {
        Ok(entry) => Ok(entry),
        Err(fault) => Err(fault_of(number, fault)),
    }
}

// Whether each frame spells an entry. None is kept: each is read anew where it is judged, so that its state alone has them.
pub(crate) fn check_entries(alloc: Global, frames: &Frames) -> Result<(), JournalWhy>
    ensures entries { OnOk result ((entries : List EntryValue) × Spells frames.now entries) }
    ensures why { IfErr result (IsNoEntry frames.now) }
{
    for number in 0..frames.count() {
        drop(read_entry(alloc, frames, number)?);
    }
    Ok(())
}

// The part of a base that an entry is, if it is one.
fn part_of(entry: Entry) -> Option<Part>
    ensures { MatchOption result (is_part entry ≡ false) (λ part. entry ≡ EntryValue.Base part) }
{
    match entry {
        Entry::Base { part } => Some(part),
        _ => None,
    }
}

// The part of a base that the frame of this number spells, if it spells one.
pub(crate) fn read_part(
    alloc: Global,
    frames: &Frames,
    number: u64,
) -> Result<Option<Part>, JournalWhy>
    requires { number < length frames.now }
    ensures part { IfOk result (λ part. (entry : EntryValue) × SpellsAt frames.now number entry
        × MatchOption part (is_part entry ≡ false) (λ part. entry ≡ EntryValue.Base part)) }
    ensures why { IfErr result (IsBadFrom frames.now number) }
{
    match read_entry(alloc, frames, number) {
        Ok(entry) => Ok(part_of(entry)),
        Err(why) => Err(why),
    }
}
