//! Judges the frames of a log as a journal.
ghost use Rattle.std.specs.Prelude.{◌≡◌, ◌≤◌, ◌<◌, ◌∷◌, List, ℕ, length, take, OnOk, IfOk, IfErr, IfSome, IfNone, true, false};
ghost use Rattle.hm_data.specs.declared.entry.Entry.{Entry as EntryValue};
ghost use Rattle.hm_data.specs.declared.sheet.Sheet.{Sheet as SheetValue};
ghost use Rattle.hm_model.specs.Base.{AreSheets};
ghost use Rattle.hm_model.specs.Image.{counted};
ghost use Rattle.hm_model.specs.Journal.{back};
ghost use Rattle.hm_model.specs.Laws.{is_part};
ghost use Rattle.hm_model.specs.Rules.{Allowed};
ghost use Rattle.hm_journal.specs.Stored.{IsJournal, IsJournalByKind, SameSheets, frames_of, opened};
ghost use Rattle.hm_journal.specs.Judged.{EndsInOther, HasBegunWith, IsBeginning, IsFound, IsNoJournalIn, IsNotAdded, IsNotAddedFrom, PartsEnd, Spells, SpellsAt};
ghost use Rattle.hm_journal.specs.Verdict.{IsLowestDifference, IsNoJournal};
ghost use Rattle.hm_journal.specs.View.{IsOrigin};

use crate::based::{read_based, read_parts};
use crate::first::read_first;
use crate::frame::{check_entries, read_entry};
use crate::origin::Origin;
use crate::sheets::{copy_sheets, lowest_difference};
use crate::why::JournalWhy;
use hm_data::{Entry, Sheet};
use hm_hall::parts_stand_first;
use hm_judge::NotAllowed;
use hm_log::Frames;
use hm_state::State;
use std::alloc::{AllocError, Global};

// The lowest kind whose sheets differ from these in what an entry adopts.
fn adopts_others(sheets: &[Sheet], entry: &Entry) -> Option<u8>
    ensures some { IfSome result (λ kind. (own : List SheetValue) × (entry.now ≡ EntryValue.Adopt own) × IsLowestDifference sheets.now own kind) }
    ensures none { IfNone result ((own : List SheetValue) → entry.now ≡ EntryValue.Adopt own → SameSheets sheets.now own) }
{
    match entry {
        Entry::Adopt { sheets: own } => lowest_difference(sheets, own.as_slice()),
        _ => None,
    }
}

// Whether an entry may stand as that of this number after those that are there, and else why not.
#[tactic(auto, using(crate::proofs::Judging::breaks_by))]
fn may_stand(alloc: Global, state: &State, number: u64, entry: &Entry) -> Result<(), JournalWhy>
    requires { is_part entry.now ≡ true → EndsInOther state.now.past }
    ensures allowed { OnOk result (Allowed state.now.past entry.now) }
    ensures other { OnOk result (is_part entry.now ≡ false) }
    ensures why { (sheets : List SheetValue) → IfErr result (IsNotAdded sheets state.now.past number entry.now) }
{
    match state.allowed(alloc, entry) {
        Ok(()) => Ok(()),
        Err(NotAllowed::Rule(rule)) => Err(JournalWhy::Illegal { number, rule }),
        Err(NotAllowed::Memory) => Err(JournalWhy::Memory),
    }
}

// Whether an entry may stand there, and adopts no sheets that differ from these.
fn may_follow(
    alloc: Global,
    state: &State,
    number: u64,
    entry: &Entry,
    sheets: &[Sheet],
) -> Result<(), JournalWhy>
    requires { is_part entry.now ≡ true → EndsInOther state.now.past }
    ensures allowed { OnOk result (Allowed state.now.past entry.now) }
    ensures other { OnOk result (is_part entry.now ≡ false) }
    ensures same { OnOk result ((own : List SheetValue) → entry.now ≡ EntryValue.Adopt own → SameSheets sheets.now own) }
    ensures why { IfErr result (IsNotAdded sheets.now state.now.past number entry.now) }
{
    may_stand(alloc, state, number, entry)?;
    match adopts_others(sheets, entry) {
        None => Ok(()),
        Some(kind) => Err(JournalWhy::SheetsDiffer(kind)),
    }
}

// Adds an entry that may stand after those that are there.
fn add_allowed(alloc: Global, state: &mut State, entry: Entry) -> Result<(), AllocError>
    requires allowed { Allowed state.old.past entry }
    requires other { is_part entry ≡ false }
    ensures { OnOk result (state.new.past ≡ entry ∷ state.old.past) }
{
    let ready = state.prepare_own(alloc, entry)?;
    state.apply(ready);
    Ok(())
}

// Adds an entry as that of this number, if it may stand after those that are there.
fn add_entry(
    alloc: Global,
    state: &mut State,
    number: u64,
    entry: Entry,
    sheets: &[Sheet],
) -> Result<(), JournalWhy>
    requires { is_part entry ≡ true → EndsInOther state.old.past }
    ensures past { OnOk result (state.new.past ≡ entry ∷ state.old.past) }
    ensures allowed { OnOk result (Allowed state.old.past entry) }
    ensures other { OnOk result (is_part entry ≡ false) }
    ensures same { OnOk result ((own : List SheetValue) → entry ≡ EntryValue.Adopt own → SameSheets sheets.now own) }
    ensures why { IfErr result (IsNotAdded sheets.now state.old.past number entry) }
{
    if let Err(why) = may_follow(alloc, state, number, &entry, sheets) {
        drop(entry);
        return Err(why);
    }
    match add_allowed(alloc, state, entry) {
        Ok(()) => Ok(()),
        Err(_) => Err(JournalWhy::Memory),
    }
}

// Adds the entry of the frame of this number, if it may stand after those that are there.
fn read_next(
    alloc: Global,
    state: &mut State,
    frames: &Frames,
    number: u64,
    sheets: &[Sheet],
) -> Result<(), JournalWhy>
    requires there { number < length frames.now }
    requires ends { PartsEnd frames.now number state.old.past }
    ensures added { OnOk result ((entry : EntryValue) × SpellsAt frames.now number entry × (state.new.past ≡ entry ∷ state.old.past)
        × Allowed state.old.past entry × (is_part entry ≡ false) × ((own : List SheetValue) → entry ≡ EntryValue.Adopt own → SameSheets sheets.now own)) }
    ensures why { IfErr result (IsNotAddedFrom sheets.now state.old.past frames.now number) }
{
    let entry = read_entry(alloc, frames, number)?;
    add_entry(alloc, state, number, entry, sheets)
}

// Adds the entries of the frames from this number on, if they may stand after those that are there.
fn read_others(
    alloc: Global,
    state: &mut State,
    frames: &Frames,
    begun: u64,
    sheets: &[Sheet],
) -> Result<(), JournalWhy>
    requires spells { Spells (take begun frames.now) (back state.old.past) }
    requires ends { PartsEnd frames.now begun state.old.past }
    requires begun { HasBegunWith sheets.now state.old.past }
    ensures spells { OnOk result (Spells frames.now (back state.new.past)) }
    ensures begun { OnOk result (HasBegunWith sheets.now state.new.past) }
    ensures origin { (parts based : ℕ) → IsOrigin parts based (back state.old.past) → OnOk result (IsOrigin parts based (back state.new.past)) }
    ensures why { (entries : List EntryValue) → Spells frames.now entries → IfErr result (IsNoJournal sheets.now entries) }
{
    parts_stand_first();
    for number in begun..frames.count() {
        read_next(alloc, state, frames, number, sheets)?;
    }
    Ok(())
}

// The state of the journal that frames begin with: a base, or a start.
fn read_begin(
    alloc: Global,
    frames: &Frames,
    sheets: &[Sheet],
) -> Result<(State, Origin), JournalWhy>
    requires { 0 < length frames.now }
    ensures begins { IfOk result (λ read. IsBeginning sheets.now frames.now read.0.past read.1.parts read.1.based) }
    ensures why { (entries : List EntryValue) → Spells frames.now entries → IfErr result (IsNoJournal sheets.now entries) }
{
    let parts = read_parts(alloc, frames)?;
    if !parts.as_slice().is_empty() {
        return read_based(alloc, frames, parts, sheets);
    }
    drop(parts);
    let state = read_first(alloc, frames, sheets)?;
    Ok((state, Origin::none()))
}

// The state of the journal that frames spell, which has begun, if it has the same sheet of each kind. Its errors are those
// of frames that spell entries.
fn read_journal(
    alloc: Global,
    frames: &Frames,
    sheets: &[Sheet],
) -> Result<(State, Origin), JournalWhy>
    requires { 0 < length frames.now }
    ensures spells { IfOk result (λ read. Spells frames.now (back read.0.past)) }
    ensures begun { IfOk result (λ read. HasBegunWith sheets.now read.0.past) }
    ensures origin { IfOk result (λ read. IsOrigin read.1.parts read.1.based (back read.0.past)) }
    ensures why { (entries : List EntryValue) → Spells frames.now entries → IfErr result (IsNoJournal sheets.now entries) }
{
    let (mut state, origin) = read_begin(alloc, frames, sheets)?;
    read_others(alloc, &mut state, frames, origin.begun(), sheets)?;
    Ok((state, origin))
}

// The state of the journal that frames spell. One without entries gets that of its first.
fn find_state(
    alloc: Global,
    frames: &Frames,
    sheets: &[Sheet],
) -> Result<(State, Origin), JournalWhy>
    requires { AreSheets sheets.now }
    ensures state { IfOk result (λ read. (journal : List EntryValue) × IsJournal sheets.now journal × (frames_of journal ≡ frames.now)
        × (read.0.past ≡ back (opened sheets.now journal)) × IsOrigin read.1.parts read.1.based journal) }
    ensures why { IfErr result (IsNoJournalIn sheets.now frames.now) }
{
    check_entries(alloc, frames)?;
    if frames.count() == 0 {
        let state = State::start(alloc, copy_sheets(alloc, sheets)?)?;
        return Ok((state, Origin::none()));
    }
    read_journal(alloc, frames, sheets)
}

// The frames themselves, and the state of the journal that they spell.
pub(crate) fn find_journal(
    alloc: Global,
    frames: Frames,
    sheets: &[Sheet],
) -> Result<(Vec<Vec<u8>>, State, Origin), JournalWhy>
    requires { AreSheets sheets.now }
    ensures found { IfOk result (λ found. IsFound sheets.now frames found.0.items found.1.past found.2.parts found.2.based) }
    ensures why { IfErr result (IsNoJournalIn sheets.now frames) }
{
    match find_state(alloc, &frames, sheets) {
        Ok((state, origin)) => Ok((frames.into_vec(), state, origin)),
        Err(why) => Err(why),
    }
}

// How many entries were recorded of the journal that frames spell, with those that its base stands for, if it has the same
// sheet of each kind. Each is judged by the state of those before it, so a state is made for that, and dropped.
pub(crate) fn count_entries(
    alloc: Global,
    frames: &Frames,
    sheets: &[Sheet],
) -> Result<u64, JournalWhy>
    ensures count { IfOk result (λ n. (journal : List EntryValue) × IsJournalByKind sheets.now journal × (frames_of journal ≡ frames.now) × (n ≡ counted (back journal))) }
    ensures why { IfErr result (IsNoJournalIn sheets.now frames.now) }
{
    check_entries(alloc, frames)?;
    if frames.count() == 0 {
        return Ok(0);
    }
    let (state, _) = read_journal(alloc, frames, sheets)?;
    Ok(state.counted())
}
