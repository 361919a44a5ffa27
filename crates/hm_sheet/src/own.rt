// The sheets of the kinds of procedures, as their handlers have them, and a handler of some of them.
ghost use Rattle.std.specs.Prelude.{◌≡◌, ℕ, List as PlainList, ◌≤◌, ◌++◌, ◌+◌, ◌-◌, ◌^◌, min, map, IfOk, OnOk, OnErr, IsTrue, Some, length, take};
ghost use Rattle.std.specs.List.{AllByRecursion};
ghost use Rattle.hm_model.specs.Evaluation.{CanRun, answer_of};
ghost use Rattle.hm_model.specs.Lists.{lines_of as listed, exact_rows as exact};
ghost use Rattle.hm_sheet.specs.Lines.{line_of};
ghost use Rattle.hm_sheet.specs.Own.{row_to as leads, in_turn, own_sheet as own, is_kind};
ghost use Rattle.hm_sheet.specs.Words.{risen};

use crate::among::answer;
use crate::handler::Handler;
use crate::lines::{Line, exact_rows, lines_of};
use crate::valid::Valid;
use hm_acts::NO_ROW;
use hm_data::{Row, Sheet, StepIn, StepOut};
use hm_names::List;
use std::alloc::{AllocError, Global};
use std::marker::PhantomData;

fn row_to(line: Line, next: u8) -> Row
    ensures { result ≡ leads (line_of line) next }
{
    Row {
        act: line.act,
        next,
        after: line.after,
        undo: line.undo,
    }
}

// Lines as rows after others, each leading to the next one, and the last to the end.
fn push_rows(rows: &mut Vec<Row>, lines: &[Line]) -> Result<(), AllocError>
    requires { length lines.now ≤ 200 }
    ensures { OnOk result (rows.new.items ≡ rows.old.items ++ in_turn 1 (map line_of lines.now)) }
{
    let mut rest = lines;
    let mut next = 1;
    while let [line, following @ ..] = rest {
        let to = if following.is_empty() { NO_ROW } else { next };
        rows.push(row_to(*line, to))?;
        rest = following;
        next += 1;
    }
    Ok(())
}

/// The sheet of a kind of procedures: its rows in the order in which they are led through.
pub fn own_sheet(alloc: Global, kind: u8) -> Result<Valid, AllocError>
    requires { IsTrue (is_kind kind) }
    ensures { IfOk result (λ valid. valid ≡ own kind) }
{
    let mut rows = Vec::from_slice(alloc, exact_rows(kind))?;
    push_rows(&mut rows, lines_of(kind))?;
    let sheet = Sheet {
        kind,
        rows: List::of(rows),
    };
    match Valid::new(sheet) {
        Ok(valid) => Ok(valid),
        Err(_) => unreachable!(),
    }
}

fn own_sheets(alloc: Global, kinds: &[u8]) -> Result<Vec<Valid>, AllocError>
    requires { AllByRecursion (λ kind. IsTrue (is_kind kind)) kinds.now }
    ensures { IfOk result (λ v. v.items ≡ map own kinds.now) }
{
    let mut sheets = Vec::new(alloc);
    for kind in kinds {
        sheets.push(own_sheet(alloc, *kind)?)?;
    }
    Ok(sheets)
}

/// Kinds of procedures.
pub trait Kinds: Send + Drop {
    ghost kinds_are: { PlainList ℕ };

    /// The kinds.
    fn kinds() -> &'static [u8]
        ensures kinds { result.now ≡ kinds_are }
        ensures each { AllByRecursion (λ kind. IsTrue (is_kind kind)) result.now };
}

/// Runs the sheets of some kinds. Each answer is computed from the sheet and the input alone.
#[derive(Drop)]
pub struct Hands<K> {
    sheets: List<Valid>,
    steps: u64,
    undos: u64,
    of: PhantomData<K>,
}

impl<K: Kinds> Hands<K> {
    /// A handler of the kinds that was not called yet.
    pub fn new(alloc: Global) -> Result<Hands<K>, AllocError>
        ensures sheets { IfOk result (λ hands. ⟦<Hands<K> as Handler>⟧.sheets_are hands ≡ map own K.kinds_are) }
        ensures steps { IfOk result (λ hands. ⟦<Hands<K> as Handler>⟧.steps_are hands ≡ 0) }
        ensures undos { IfOk result (λ hands. ⟦<Hands<K> as Handler>⟧.undos_are hands ≡ 0) }
    {
        let sheets = own_sheets(alloc, K::kinds())?;
        Ok(Hands {
            sheets: List::of(sheets),
            steps: 0,
            undos: 0,
            of: PhantomData,
        })
    }
}

impl<K: Kinds> Handler for Hands<K> {
    ghost sheets_are = { λ hands. hands.sheets };

    ghost steps_are = { λ hands. hands.steps };

    ghost undos_are = { λ hands. hands.undos };

    fn sheets(&self) -> &[Valid] {
        self.sheets.as_slice()
    }

    fn calls(&self) -> u64 {
        self.steps.saturating_add(self.undos)
    }

    fn step(&mut self, alloc: Global, at: &StepIn, out: &mut StepOut) -> Result<(), AllocError> {
        *out = answer(alloc, self.sheets.as_slice(), at)?;
        self.steps = self.steps.saturating_add(1);
        Ok(())
    }

    fn undo(&mut self, alloc: Global, at: &StepIn, out: &mut StepOut) -> Result<(), AllocError> {
        *out = answer(alloc, self.sheets.as_slice(), at)?;
        self.undos = self.undos.saturating_add(1);
        Ok(())
    }
}
