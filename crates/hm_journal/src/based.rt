//! Judges the base that a journal begins with.
ghost use Rattle.std.specs.Prelude.{◌≡◌, ◌≢◌, ℕ, [], List, IfOk, IfErr, MatchOption, OnOk, true, false};
ghost use Rattle.hm_data.specs.declared.entry.Entry.{Entry as EntryValue};
ghost use Rattle.hm_data.specs.declared.part.Part.{Part as PartValue};
ghost use Rattle.hm_data.specs.declared.sheet.Sheet.{Sheet as SheetValue};
ghost use Rattle.hm_base.specs.Read.{IsNoBase};
ghost use Rattle.hm_model.specs.Base.{IsBegun};
ghost use Rattle.hm_model.specs.Journal.{Past};
ghost use Rattle.hm_model.specs.Laws.{is_part};
ghost use Rattle.hm_model.specs.Rebase.{based};
ghost use Rattle.hm_model.specs.Rules.{Breaks};
ghost use Rattle.hm_journal.specs.Judged.{AreLeading, EndsAt, HasBegunWith, IsBadFrom, IsBeginning, Spells, head_sheets};
ghost use Rattle.hm_journal.specs.Stored.{SameSheets};
ghost use Rattle.hm_journal.specs.Verdict.{IsLowestDifference, IsNoJournal};

use crate::frame::{read_entry, read_part};
use crate::origin::Origin;
use crate::sheets::lowest_difference;
use crate::why::JournalWhy;
use hm_base::BaseWhy;
use hm_data::{Entry, Part, Sheet};
use hm_log::Frames;
use hm_names::List;
use hm_state::State;
use std::alloc::Global;

// The parts of a base that frames begin with: all before the first that spells another entry.
pub(crate) fn read_parts(alloc: Global, frames: &Frames) -> Result<List<Part>, JournalWhy>
    ensures parts { IfOk result (AreLeading frames.now) }
    ensures why { IfErr result (λ why. (number : ℕ) × IsBadFrom frames.now number why) }
{
    let mut parts = Vec::new(alloc);
    for number in 0..frames.count() {
        let Some(part) = read_part(alloc, frames, number)? else {
            return Ok(List::of(parts));
        };
        parts.push(part)?;
    }
    Ok(List::of(parts))
}

// The sheets that the first part tells, if it is a head.
fn sheets_in(parts: &[Part]) -> &[Sheet]
    ensures { result.now ≡ head_sheets parts.now }
{
    match parts.first() {
        Some(Part::Head { sheets, .. }) => sheets.as_slice(),
        _ => &[],
    }
}

// The lowest kind whose sheets differ from these in the head of parts.
fn head_differs(sheets: &[Sheet], parts: &List<Part>) -> Option<u8>
    ensures { MatchOption result (SameSheets sheets.now (head_sheets parts.now)) (IsLowestDifference sheets.now (head_sheets parts.now)) }
{
    lowest_difference(sheets, sheets_in(parts.as_slice()))
}

// The rule by which an entry is refused at which parts of a base end that isn't whole: it is a part that doesn't fit, or stands
// behind them.
fn rule_behind(entry: &Entry) -> u8
    ensures part { is_part entry.now ≡ true → result ≡ 18 }
    ensures other { (past : Past) → is_part entry.now ≡ false → past ≢ [] → (IsBegun past → ⊥) → Breaks past entry.now result }
{
    match entry {
        Entry::Start { sheets: _ } => 1,
        _ => 18,
    }
}

// Why frames are no journal that begin with parts of a base of these sheets, which end at this number.
fn illegal_at(alloc: Global, frames: &Frames, number: u64) -> JournalWhy
    ensures { (parts : List PartValue) (sheets : List SheetValue) (entries : List EntryValue) → EndsAt frames.now parts number →
        SameSheets sheets (head_sheets parts) → Spells frames.now entries → IsNoJournal sheets entries result }
{
    if number >= frames.count() {
        return JournalWhy::Illegal { number, rule: 18 };
    }
    match read_entry(alloc, frames, number) {
        Ok(entry) => {
            let rule = rule_behind(&entry);
            drop(entry);
            JournalWhy::Illegal { number, rule }
        }
        Err(why) => why,
    }
}

// Why frames are no journal that begin with parts of a base, which end at this number: a first part that doesn't fit comes before
// the head's sheets, which may differ from those asked for in this kind, and all else behind them.
fn wrong_at(alloc: Global, frames: &Frames, number: u64, differs: Option<u8>) -> JournalWhy
    ensures { (parts : List PartValue) (sheets : List SheetValue) (entries : List EntryValue) → EndsAt frames.now parts number →
        MatchOption differs (SameSheets sheets (head_sheets parts)) (IsLowestDifference sheets (head_sheets parts)) → Spells frames.now entries →
        IsNoJournal sheets entries result }
{
    if number == 0 {
        return JournalWhy::Illegal { number, rule: 18 };
    }
    match differs {
        Some(kind) => JournalWhy::SheetsDiffer(kind),
        None => illegal_at(alloc, frames, number),
    }
}

// Why frames are no journal that begin with parts that are no base for this reason.
fn why_not(alloc: Global, frames: &Frames, why: BaseWhy, differs: Option<u8>) -> JournalWhy
    ensures { (parts : List PartValue) (sheets : List SheetValue) (entries : List EntryValue) → parts ≢ [] → AreLeading frames.now parts → IsNoBase parts why →
        MatchOption differs (SameSheets sheets (head_sheets parts)) (IsLowestDifference sheets (head_sheets parts)) → Spells frames.now entries →
        IsNoJournal sheets entries result }
{
    match why {
        BaseWhy::Part(number) => wrong_at(alloc, frames, number, differs),
        BaseWhy::Memory => JournalWhy::Memory,
    }
}

// The state of a whole base, unless the sheets of its head differ in a kind.
fn with_same(state: State, differs: Option<u8>) -> Result<State, JournalWhy>
    ensures past { IfOk result (λ same. same.past ≡ state.past) }
    ensures begun { (parts : List PartValue) (sheets : List SheetValue) → state.past ≡ based parts →
        MatchOption differs (SameSheets sheets (head_sheets parts)) (IsLowestDifference sheets (head_sheets parts)) → OnOk result (HasBegunWith sheets (based parts)) }
    ensures why { (frames : List (List ℕ)) (parts : List PartValue) (sheets : List SheetValue) (entries : List EntryValue) → state.past ≡ based parts → parts ≢ [] →
        AreLeading frames parts → MatchOption differs (SameSheets sheets (head_sheets parts)) (IsLowestDifference sheets (head_sheets parts)) → Spells frames entries →
        IfErr result (IsNoJournal sheets entries) }
{
    state.journal();
    match differs {
        None => Ok(state),
        Some(kind) => {
            drop(state);
            Err(JournalWhy::SheetsDiffer(kind))
        }
    }
}

// The state of the journal that has these parts and nothing else, if they are a whole base that has the same sheet of each
// kind.
fn state_with(
    alloc: Global,
    frames: &Frames,
    parts: List<Part>,
    sheets: &[Sheet],
) -> Result<State, JournalWhy>
    requires some { parts ≢ [] }
    requires leading { AreLeading frames.now parts }
    ensures state { IfOk result (λ state. state.past ≡ based parts) }
    ensures begun { OnOk result (HasBegunWith sheets.now (based parts)) }
    ensures why { (entries : List EntryValue) → Spells frames.now entries → IfErr result (IsNoJournal sheets.now entries) }
{
    let differs = head_differs(sheets, &parts);
    match State::from_base(alloc, parts) {
        Ok(state) => with_same(state, differs),
        Err(why) => Err(why_not(alloc, frames, why, differs)),
    }
}

// The state of the journal that frames begin with, which is this base, and of what base it is.
pub(crate) fn read_based(
    alloc: Global,
    frames: &Frames,
    parts: List<Part>,
    sheets: &[Sheet],
) -> Result<(State, Origin), JournalWhy>
    requires some { parts ≢ [] }
    requires leading { AreLeading frames.now parts }
    ensures begins { IfOk result (λ read. IsBeginning sheets.now frames.now read.0.past read.1.parts read.1.based) }
    ensures why { (entries : List EntryValue) → Spells frames.now entries → IfErr result (IsNoJournal sheets.now entries) }
{
    let count = parts.as_slice().len() as u64;
    let state = state_with(alloc, frames, parts, sheets)?;
    let origin = Origin {
        parts: count,
        based: state.counted(),
    };
    Ok((state, origin))
}
