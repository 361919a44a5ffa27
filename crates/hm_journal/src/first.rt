//! Judges the first entry of a journal that has no base.
ghost use Rattle.std.specs.Prelude.{◌≡◌, ◌<◌, ◌∷◌, [], List, length, OnOk, IfOk, IfErr, false};
ghost use Rattle.hm_data.specs.declared.entry.Entry.{Entry as EntryValue};
ghost use Rattle.hm_model.specs.Laws.{is_part};
ghost use Rattle.hm_journal.specs.Judged.{HasBegunWith, Spells, SpellsAt};
ghost use Rattle.hm_journal.specs.Verdict.{IsNoJournal};

use crate::frame::read_entry;
use crate::sheets::lowest_difference;
use crate::why::JournalWhy;
use hm_data::{Entry, Sheet};
use hm_judge::are_sheets;
use hm_log::Frames;
use hm_names::Copied;
use hm_state::State;
use std::alloc::Global;

// The state of a journal that has this entry alone, if that starts one that has the same sheet of each kind.
fn state_with(alloc: Global, first: &Entry, sheets: &[Sheet]) -> Result<State, JournalWhy>
    requires { is_part first.now ≡ false }
    ensures state { IfOk result (λ state. state.past ≡ first.now ∷ []) }
    ensures begun { OnOk result (HasBegunWith sheets.now (first.now ∷ [])) }
    ensures why { IfErr result (λ why. (more : List EntryValue) → IsNoJournal sheets.now (first.now ∷ more) why) }
{
    let Entry::Start { sheets: own } = first else {
        return Err(JournalWhy::Illegal { number: 0, rule: 1 });
    };
    if !are_sheets(own.as_slice()) {
        return Err(JournalWhy::Illegal { number: 0, rule: 1 });
    }
    if let Some(kind) = lowest_difference(sheets, own.as_slice()) {
        return Err(JournalWhy::SheetsDiffer(kind));
    }
    Ok(State::start(alloc, own.copy(alloc)?)?)
}

// The state of a journal that has the entry of the first frame alone, if that starts one that has the same sheet of each
// kind.
pub(crate) fn read_first(
    alloc: Global,
    frames: &Frames,
    sheets: &[Sheet],
) -> Result<State, JournalWhy>
    requires some { 0 < length frames.now }
    requires other { (entry : EntryValue) → SpellsAt frames.now 0 entry → is_part entry ≡ false }
    ensures first { IfOk result (λ state. (entry : EntryValue) × SpellsAt frames.now 0 entry × (state.past ≡ entry ∷ []) × HasBegunWith sheets.now state.past × (is_part entry ≡ false)) }
    ensures why { (entries : List EntryValue) → Spells frames.now entries → IfErr result (IsNoJournal sheets.now entries) }
{
    let first = read_entry(alloc, frames, 0)?;
    let state = state_with(alloc, &first, sheets);
    drop(first);
    state
}
