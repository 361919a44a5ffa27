//! Opens a disk as a journal.
ghost use Rattle.std.specs.Prelude.{◌≡◌, ◌≢◌, ◌⊎◌, ◌≤◌, ◌+◌, List, ℕ, [], ◌∷◌, length, IsErrOf, IfOk, IfErr, OnOk, OnErr, MatchResult, All, None, false};
ghost use Rattle.hm_ports.specs.Faults.{Rose};
ghost use Rattle.hm_disk.specs.Called.{IsCalled};
ghost use Rattle.hm_disk.specs.Disk.{LeavesOnly, Only, LeavesThen};
ghost use Rattle.hm_log.specs.Format.{HoldsFrames, IsClean, Reads, size_with};
ghost use Rattle.hm_log.specs.Opening.{IsBlank, IsInPlace, IsMaking, IsUsed, OnlyReads, Reopens};
ghost use Rattle.hm_data.specs.declared.entry.Entry.{Entry as EntryValue};
ghost use Rattle.hm_data.specs.declared.sheet.Sheet.{Sheet as SheetValue};
ghost use Rattle.hm_entry.specs.Fits.{EntryFits};
ghost use Rattle.hm_model.specs.Base.{AreSheets};
ghost use Rattle.hm_model.specs.Image.{counted};
ghost use Rattle.hm_model.specs.Journal.{back};
ghost use Rattle.hm_hall.specs.Recording.{with_next};
ghost use Rattle.hm_journal.specs.Stored.{IsJournal, IsOnDisk, IsOnDiskByKind, HoldsJournal, Spares, SameFrames, GetsFirst, IsOpening, frames_of, opened};
ghost use Rattle.hm_journal.specs.Since.{Began, IsUnbegun};
ghost use Rattle.hm_journal.specs.Judged.{IsNoJournalIn, of_log};
ghost use Rattle.hm_journal.specs.Verdict.{Refuses, IsUnjudged};
ghost use Rattle.hm_journal.specs.View.{IsOrigin, entries_in, kept_of};

use crate::journal::Journal;
use crate::limits::Limits;
use crate::opened::Opening;
use crate::origin::Origin;
use crate::reading::{count_entries, find_journal};
use crate::sheets::copy_sheets;
use crate::why::JournalWhy;
use hm_data::{Entry, Sheet};
use hm_disk::Disk;
use hm_log::{Frames, Log, OpenWhy};
use hm_state::State;
use std::alloc::{AllocError, Global};

// Why a log isn't opened.
fn why_of(why: OpenWhy) -> JournalWhy
    ensures { result ≡ of_log why }
{
    match why {
        OpenWhy::Fault => JournalWhy::Fault,
        OpenWhy::NotALog(place) => JournalWhy::NotALog(place),
        OpenWhy::BadFrame(place) => JournalWhy::BadFrame(place),
        OpenWhy::Memory => JournalWhy::Memory,
    }
}

fn start_entry(alloc: Global, sheets: &[Sheet]) -> Result<Entry, AllocError>
    ensures { IfOk result (λ entry. entry ≡ Entry.Start sheets.now) }
{
    Ok(Entry::Start {
        sheets: copy_sheets(alloc, sheets)?,
    })
}

// The journal of an open log, whose frames these are.
fn journal_of<D: Disk>(
    log: Log<D>,
    frames: Vec<Vec<u8>>,
    origin: Origin,
    limits: Limits,
) -> Journal<D>
    requires origin { IsOrigin origin.parts origin.based (entries_in frames.items) }
    requires live { log.stalled ≡ false }
    requires fits { All EntryFits (entries_in frames.items) }
    requires count { length frames.items ≡ length (entries_in frames.items) }
    requires bytes { log.bytes ≡ size_with (frames_of (entries_in frames.items)) }
    requires logged { D.tells → log.frames ≡ frames_of (entries_in frames.items) }
    requires durable { D.tells → (c : List ℕ) → D.image log.disk c → Reads c (frames_of (entries_in frames.items)) }
    ensures disk { result.disk ≡ log.disk }
    ensures kept { result.kept ≡ kept_of frames.items None None None limits }
    ensures opened { result.opened ≡ record { disk = log.disk; count = length (entries_in frames.items) } }
{
    let bytes = log.bytes();
    let opened = Opening::new(log.anchor(), frames.len() as u64);
    Journal {
        log,
        frames,
        bytes,
        origin,
        next: None,
        tail: None,
        halted: None,
        limits,
        opened,
    }
}

// Makes the first entry ready to be recorded.
fn ready_start<D: Disk>(
    alloc: Global,
    journal: &mut Journal<D>,
    sheets: &[Sheet],
) -> Result<(), AllocError>
    requires { AreSheets sheets.now }
    ensures kept { OnOk result (journal.new.kept ≡ with_next journal.old.kept (Entry.Start sheets.now)) }
    ensures disk { journal.new.disk ≡ journal.old.disk }
    ensures opened { journal.new.opened ≡ journal.old.opened }
    ensures err { OnErr result (journal.new.kept ≡ journal.old.kept) }
{
    let start = start_entry(alloc, sheets)?;
    let ready = journal.ready(alloc, &start);
    drop(start);
    ready
}

// Records the first entry.
fn record_start<D: Disk>(
    alloc: Global,
    journal: &mut Journal<D>,
    sheets: &[Sheet],
) -> Result<(), JournalWhy>
    requires sheets { AreSheets sheets.now }
    requires hard { 65552 ≤ journal.old.kept.hard }
    requires empty { journal.old.kept.entries ≡ [] }
    requires live { journal.old.kept.halted ≡ None }
    requires whole { journal.old.kept.tail ≡ None }
    ensures kept { OnOk result (journal.new.kept ≡ record journal.old.kept { entries = Entry.Start sheets.now ∷ []; next = None }) }
    ensures why { IfErr result IsUnjudged }
    ensures untaken { IfErr result (λ why. why ≢ JournalWhy.Fault → journal.new.disk ≡ journal.old.disk) }
    ensures fault { IsErrOf result JournalWhy.Fault → Rose (D.faults journal.old.disk) (D.faults journal.new.disk) }
    ensures opened { journal.new.opened ≡ journal.old.opened }
    ensures err { OnErr result (IsUnbegun (Entry.Start sheets.now) journal.new.kept) }
{
    ready_start(alloc, journal, sheets)?;
    match journal.record_entry() {
        Ok(_) => Ok(()),
        Err(_) => Err(JournalWhy::Fault),
    }
}

// The journal of a log without frames, which gets its first entry.
fn start<D: Disk>(
    alloc: Global,
    journal: Journal<D>,
    sheets: &[Sheet],
) -> Result<Journal<D>, (D, JournalWhy)>
    requires sheets { AreSheets sheets.now }
    requires hard { 65552 ≤ journal.kept.hard }
    requires empty { journal.kept.entries ≡ [] }
    requires live { journal.kept.halted ≡ None }
    requires whole { journal.kept.tail ≡ None }
    requires here { journal.opened ≡ record { disk = journal.disk; count = 0 } }
    ensures kept { IfOk result (λ started. started.kept ≡ record journal.kept { entries = Entry.Start sheets.now ∷ []; next = None }) }
    ensures why { IfErr result (λ e. IsUnjudged e.1) }
    ensures untaken { IfErr result (λ e. e.1 ≢ JournalWhy.Fault → e.0 ≡ journal.disk) }
    ensures fault { IfErr result (λ e. e.1 ≡ JournalWhy.Fault → Rose (D.faults journal.disk) (D.faults e.0)) }
    ensures opened { IfOk result (λ started. started.opened ≡ journal.opened) }
    ensures began { IfErr result (λ e. Began D.Disk (Entry.Start sheets.now) journal.disk e.0) }
{
    let mut journal = journal;
    match record_start(alloc, &mut journal, sheets) {
        Ok(()) => Ok(journal),
        Err(why) => Err((journal.into_disk(), why)),
    }
}

// Opens the log on a disk.
fn open_log<D: Disk>(alloc: Global, disk: D) -> Result<(Log<D>, Frames), (D, JournalWhy)>
    ensures opens { D.tells → IfOk result (λ r. HoldsFrames (D.seen disk) r.1) }
    ensures frames { D.tells → IfOk result (λ r. r.0.frames ≡ r.1) }
    ensures bytes { IfOk result (λ r. r.0.bytes ≡ size_with r.1) }
    ensures live { IfOk result (λ r. r.0.stalled ≡ false) }
    ensures durable { D.tells → IfOk result (λ r. (c : List ℕ) → D.image r.0.disk c → Reads c r.1) }
    ensures from_then_on { D.tells → IfOk result (λ r. LeavesThen D.moment D.left_since disk r.0.disk (λ c. D.image disk c ⊎ IsMaking (D.seen disk) c) (λ c. Reads c r.1)) }
    ensures why { D.tells → IfErr result (λ e. (sheets : List SheetValue) → Refuses sheets (D.seen disk) e.1) }
    ensures accepts { D.tells → (frames : List (List ℕ)) → HoldsFrames (D.seen disk) frames → MatchResult result (λ r. r.1 ≡ frames) (λ e. IsUnjudged e.1) }
    ensures fault { IfErr result (λ e. e.1 ≡ JournalWhy.Fault → Rose (D.faults disk) (D.faults e.0)) }
    ensures no_fault { IfOk result (λ r. D.faults r.0.disk ≡ D.faults disk) }
    ensures same { IfErr result (λ e. e.1 ≢ JournalWhy.Fault → D.seen e.0 ≡ D.seen disk) }
    ensures left { D.tells → IfErr result (λ e. (frames : List (List ℕ)) → (IsBlank (D.seen disk) → ⊥) → HoldsFrames (D.seen disk) frames → Reads (D.seen e.0) frames) }
    ensures spared { D.tells → IfErr result (λ e. (frames : List (List ℕ)) → (IsBlank (D.seen disk) → ⊥) → Only (D.seen disk) (D.image disk) → HoldsFrames (D.seen disk) frames
        → (c : List ℕ) → D.image e.0 c → Reads c frames) }
    ensures any_moment { D.tells → IfErr result (λ e. LeavesOnly D.moment D.left_since disk e.0 (λ c. D.image disk c ⊎ Reopens (D.seen disk) c)) }
    ensures used { MatchResult result (λ r. IsUsed D.Disk disk r.0.disk) (λ e. IsUsed D.Disk disk e.0) }
    ensures few { D.tells → IsInPlace (D.seen disk) → MatchResult result (λ r. IsCalled D.Disk 1 disk r.0.disk) (λ e. IsCalled D.Disk 1 disk e.0) }
    ensures clean { D.tells → IsClean (D.seen disk) → IfOk result (λ r. IsCalled D.Disk 0 disk r.0.disk) }
{
    match Log::open(alloc, disk) {
        Ok(opened) => Ok(opened),
        Err((disk, why)) => Err((disk, why_of(why))),
    }
}

// A journal and its state. One without entries gets its first.
fn begin<D: Disk>(
    alloc: Global,
    journal: Journal<D>,
    state: State,
    sheets: &[Sheet],
) -> Result<(Journal<D>, State), (D, JournalWhy)>
    requires sheets { AreSheets sheets.now }
    requires hard { 65552 ≤ journal.kept.hard }
    requires next { journal.kept.next ≡ None }
    requires live { journal.kept.halted ≡ None }
    requires whole { journal.kept.tail ≡ None }
    requires here { journal.opened ≡ record { disk = journal.disk; count = length journal.kept.entries } }
    requires state { state.past ≡ back (opened sheets.now journal.kept.entries) }
    ensures kept { IfOk result (λ r. r.0.kept ≡ record journal.kept { entries = opened sheets.now journal.kept.entries }) }
    ensures state { IfOk result (λ r. r.1.past ≡ back (opened sheets.now journal.kept.entries)) }
    ensures empty { OnErr result (journal.kept.entries ≡ []) }
    ensures why { IfErr result (λ e. IsUnjudged e.1) }
    ensures untaken { IfErr result (λ e. e.1 ≢ JournalWhy.Fault → e.0 ≡ journal.disk) }
    ensures fault { IfErr result (λ e. e.1 ≡ JournalWhy.Fault → Rose (D.faults journal.disk) (D.faults e.0)) }
    ensures opened { IfOk result (λ r. r.0.opened ≡ journal.opened) }
    ensures began { IfErr result (λ e. Began D.Disk (Entry.Start sheets.now) journal.disk e.0) }
{
    if journal.count() > 0 {
        return Ok((journal, state));
    }
    match start(alloc, journal, sheets) {
        Ok(journal) => Ok((journal, state)),
        Err(failed) => Err(failed),
    }
}

// The journal of an open log, and its state.
fn of_frames<D: Disk>(
    alloc: Global,
    log: Log<D>,
    frames: Frames,
    sheets: &[Sheet],
    limits: Limits,
) -> Result<(Journal<D>, State), (D, JournalWhy)>
    requires sheets { AreSheets sheets.now }
    requires hard { 65552 ≤ limits.hard }
    requires live { log.stalled ≡ false }
    requires bytes { log.bytes ≡ size_with frames }
    requires logged { D.tells → log.frames ≡ frames }
    requires durable { D.tells → (c : List ℕ) → D.image log.disk c → Reads c frames }
    ensures journal { IfOk result (λ r. (old : List EntryValue) × IsJournal sheets.now old × (frames_of old ≡ frames) × (r.0.kept.entries ≡ opened sheets.now old)
        × (r.0.opened ≡ record { disk = log.disk; count = length old })) }
    ensures state { IfOk result (λ r. r.1.past ≡ back r.0.kept.entries) }
    ensures fresh { IfOk result (λ r. (r.0.kept.next ≡ None) × (r.0.kept.tail ≡ None) × (r.0.kept.halted ≡ None)) }
    ensures limits { IfOk result (λ r. (r.0.kept.soft ≡ limits.soft) × (r.0.kept.hard ≡ limits.hard)) }
    ensures why { IfErr result (λ e. IsUnjudged e.1 ⊎ IsNoJournalIn sheets.now frames e.1) }
    ensures fault { IfErr result (λ e. e.1 ≡ JournalWhy.Fault → Rose (D.faults log.disk) (D.faults e.0)) }
    ensures same { D.tells → IfErr result (λ e. e.1 ≢ JournalWhy.Fault → (c : List ℕ) → D.image e.0 c → Reads c frames) }
    ensures spared { D.tells → IfErr result (λ e. (journal : List EntryValue) → frames_of journal ≡ frames → (c : List ℕ) → D.image e.0 c → HoldsJournal sheets.now journal c) }
    ensures any_moment { D.tells → IfErr result (λ e. LeavesOnly D.moment D.left_since log.disk e.0 (λ c. Reads c frames ⊎ GetsFirst sheets.now frames c)) }
    ensures called { IfErr result (λ e. IsCalled D.Disk 2 log.disk e.0) }
{
    match find_journal(alloc, frames, sheets) {
        Ok((frames, state, origin)) => {
            begin(
                alloc,
                journal_of(log, frames, origin, limits),
                state,
                sheets,
            )
        }
        Err(why) => Err((log.into_disk(), why)),
    }
}

impl<D: Disk> Journal<D> {
    /// Opens a disk as a journal of these sheets, and gives its state too. A journal begins with a start or with a whole base,
    /// and has adopted no other sheets. A disk of size 0, and a log without frames, gets its first entry, a start. A log of version 1, and one that is being moved, are moved into place first, in more changes
    /// of the disk. An error gives the disk back; unless it is a fault the disk reads as before, or as the same frames.
    pub fn open(
        alloc: Global,
        disk: D,
        sheets: &[Sheet],
        limits: Limits,
    ) -> Result<(Journal<D>, State), (D, JournalWhy)>
        requires sheets { AreSheets sheets.now }
        requires hard { 65552 ≤ limits.hard }

        // What it gives.
        ensures journal { IfOk result (λ r. (old : List EntryValue) × IsJournal sheets.now old × (r.0.kept.entries ≡ opened sheets.now old)
            × (r.0.opened.count ≡ length old) × (D.tells → IsOnDisk sheets.now (D.seen disk) old
            × LeavesThen D.moment D.left_since disk r.0.opened.disk (λ c. D.image disk c ⊎ IsMaking (D.seen disk) c) (λ c. Reads c (frames_of old)))) }
        ensures state { IfOk result (λ r. r.1.past ≡ back r.0.kept.entries) }
        ensures fresh { IfOk result (λ r. (r.0.kept.next ≡ None) × (r.0.kept.tail ≡ None) × (r.0.kept.halted ≡ None)) }
        ensures limits { IfOk result (λ r. (r.0.kept.soft ≡ limits.soft) × (r.0.kept.hard ≡ limits.hard)) }

        // When which error comes.
        ensures why { D.tells → IfErr result (λ e. Refuses sheets.now (D.seen disk) e.1) }
        ensures accepts { D.tells → (journal : List EntryValue) → IsOnDisk sheets.now (D.seen disk) journal →
            MatchResult result (λ r. r.0.kept.entries ≡ opened sheets.now journal) (λ e. IsUnjudged e.1) }
        ensures fault { IfErr result (λ e. e.1 ≡ JournalWhy.Fault → Rose (D.faults disk) (D.faults e.0)) }
        ensures no_fault { IfOk result (λ r. D.faults r.0.opened.disk ≡ D.faults disk) }

        // What an error leaves.
        ensures same { D.tells → IfErr result (λ e. e.1 ≢ JournalWhy.Fault → SameFrames (D.seen disk) (D.seen e.0) (D.image e.0)) }
        ensures spared { D.tells → IfErr result (λ e. Spares sheets.now (D.seen disk) (D.image disk) (D.seen e.0) (D.image e.0)) }
        ensures any_moment { D.tells → IfErr result (λ e. LeavesOnly D.moment D.left_since disk e.0 (IsOpening sheets.now (D.seen disk) (D.image disk))) }

        // The disk's counts and its setting.
        ensures used { MatchResult result (λ r. IsUsed D.Disk disk r.0.opened.disk) (λ e. IsUsed D.Disk disk e.0) }
        ensures few { D.tells → IsInPlace (D.seen disk) → MatchResult result (λ r. IsCalled D.Disk 1 disk r.0.opened.disk) (λ e. IsCalled D.Disk 3 disk e.0) }
        ensures clean { D.tells → IsClean (D.seen disk) → IfOk result (λ r. IsCalled D.Disk 0 disk r.0.opened.disk) }
    {
        match open_log(alloc, disk) {
            Ok((log, frames)) => of_frames(alloc, log, frames, sheets, limits),
            Err(refused) => Err(refused),
        }
    }

    /// Judges a disk as `open` does, and counts the entries that were recorded of its journal, with those that its base stands
    /// for. It only reads. A disk of size 0 holds none. Any sheets may be given: the journal's are compared with them kind by kind.
    pub fn check(alloc: Global, disk: &mut D, sheets: &[Sheet]) -> Result<u64, JournalWhy>
        ensures count { D.tells → IfOk result (λ n. (journal : List EntryValue) × IsOnDiskByKind sheets.now (D.seen disk.old) journal × (n ≡ counted (back journal))) }
        ensures why { D.tells → IfErr result (Refuses sheets.now (D.seen disk.old)) }
        ensures accepts { D.tells → (journal : List EntryValue) → IsOnDiskByKind sheets.now (D.seen disk.old) journal →
            MatchResult result (λ n. n ≡ counted (back journal)) IsUnjudged }
        ensures fault { IsErrOf result JournalWhy.Fault → Rose (D.faults disk.old) (D.faults disk.new) }
        ensures only_reads { OnlyReads D.Disk disk.old disk.new }
    {
        match Log::scan(alloc, disk) {
            Ok(frames) => count_entries(alloc, &frames, sheets),
            Err(why) => Err(why_of(why)),
        }
    }
}
