ghost use Rattle.std.specs.Prelude.{◌≡◌, ◌≢◌, ◌↔◌, ℕ, ◌+◌, ◌-◌, ◌^◌, ◌&&◌, not, min, map, is_none, IsSome, IsTrue, IfOk, IfErr, OnOk, OnErr, MatchOption, None, Some, option_copied};
ghost use Rattle.std.specs.List.{AllByRecursion, flat_map};
ghost use Rattle.hm_model.specs.Base.{AreSheets};
ghost use Rattle.hm_model.specs.Sheets.{sheet_for as first_of};
ghost use Rattle.hm_model.specs.Validity.{IsValid};
ghost use Rattle.hm_model.specs.Evaluation.{CanRun, answer_of, is_step};
ghost use Rattle.hm_sheet.specs.Learnt.{CanRunIn, answer_in};
ghost use Rattle.hm_sheet.specs.Own.{is_kind as has};
ghost use Rattle.hm_sheet.specs.Registry.{IsForBox, IsRegistry, calls_of, handlers_of, runs_of, sheets_at, sheets_each, sheets_of, steps_of, undos_of, whole_of};
ghost use Rattle.hm_sheet.specs.Words.{CountRises, CountsRise, place_for, risen_if, risen_at_if, IsLowestTwice, NoneTwice, IsLowestMissing, HasAll, AreSheetsOf, IsNoRegistry};

use crate::among::{count_of, place_of, sheet_for};
use crate::fault::RegistryFault;
use crate::handler::Handler;
use crate::kinds::{all_kinds, is_kind};
use crate::learnt::{Learnt, asked, learnt_answer};
use crate::valid::Valid;
use hm_data::{Sheet, StepIn, StepOut, Turn};
use hm_names::{Copied, List, Same};
use std::alloc::{AllocError, Global};

/// Boxed handlers that have a sheet for each kind of procedures, a list of these sheets, the sheets of editions that it
/// learnt, and how often it ran a sheet.
#[derive(Drop)]
pub struct Registry {
    handlers: Vec<Box<dyn Handler>>,
    whole: List<Sheet>,
    learnt: Learnt,
    runs: u64,
}

// The lowest kind that two sheets have.
fn lowest_twice(handlers: &[Box<dyn Handler>]) -> Option<u8>
    ensures { MatchOption result
        (NoneTwice (flat_map (λ h. sheets_are h) handlers.now))
        (λ kind. IsLowestTwice (flat_map (λ h. sheets_are h) handlers.now) kind) }
{
    for kind in 0..=u8::MAX {
        if count_of(handlers, kind) > 1 {
            return Some(kind);
        }
    }
    None
}

// It is a kind of procedures, and no sheet has it.
fn is_missing(handlers: &[Box<dyn Handler>], kind: u8) -> bool
    ensures { result ≡ (has kind && is_none (first_of (flat_map (λ h. sheets_are h) handlers.now) kind)) }
{
    is_kind(kind) && place_of(handlers, kind).is_none()
}

// The lowest kind of procedures that no sheet has.
fn lowest_missing(handlers: &[Box<dyn Handler>]) -> Option<u8>
    ensures { MatchOption result
        (HasAll (flat_map (λ h. sheets_are h) handlers.now))
        (λ kind. IsLowestMissing (flat_map (λ h. sheets_are h) handlers.now) kind) }
{
    for kind in 0..=u8::MAX {
        if is_missing(handlers, kind) {
            return Some(kind);
        }
    }
    None
}

// Calls the handler by the turn.
fn run_one(
    handler: &mut Box<dyn Handler>,
    alloc: Global,
    at: &StepIn,
    out: &mut StepOut,
) -> Result<(), AllocError>
    requires { CanRun (sheets_are handler.old) at.now }
    ensures out { OnOk result (answer_of (sheets_are handler.old) at.now ≡ Some out.new) }
    ensures sheets { sheets_are handler.new ≡ sheets_are handler.old }
    ensures steps { OnOk result (steps_are handler.new ≡ risen_if (is_step at.now.turn) (steps_are handler.old)) }
    ensures undos { OnOk result (undos_are handler.new ≡ risen_if (not (is_step at.now.turn)) (undos_are handler.old)) }
    ensures idle { OnErr result
        ((steps_are handler.new ≡ steps_are handler.old) × (undos_are handler.new ≡ undos_are handler.old)) }
    ensures calls { OnOk result (CountRises (min (steps_are handler.old + undos_are handler.old) (2 ^ 64 - 1)) (min (steps_are handler.new + undos_are handler.new) (2 ^ 64 - 1))) }
{
    match &at.turn {
        Turn::Step => handler.step(alloc, at, out),
        Turn::Undo { edits: _ } => handler.undo(alloc, at, out),
    }
}

// The sheet of a kind that the handler has.
fn sheet_at(handler: &Box<dyn Handler>, kind: u8) -> &Valid
    requires { IsSome (first_of (sheets_are handler.now) kind) }
    ensures { first_of (sheets_are handler.now) kind ≡ Some result.now }
{
    match sheet_for(handler.sheets(), kind) {
        Some(valid) => valid,
        None => unreachable!(),
    }
}

// A copy of the sheet of a kind.
fn sheet_copy(alloc: Global, handlers: &[Box<dyn Handler>], kind: u8) -> Result<Sheet, AllocError>
    requires { IsSome (first_of (flat_map (λ h. sheets_are h) handlers.now) kind) }
    ensures found { IfOk result (λ sheet. first_of (flat_map (λ h. sheets_are h) handlers.now) kind ≡ Some sheet) }
    ensures valid { IfOk result (λ sheet. IsValid sheet) }
{
    let Some(place) = place_of(handlers, kind) else {
        unreachable!()
    };
    sheet_at(&handlers[place], kind).sheet().copy(alloc)
}

// Copies of the sheets of these kinds, in their order.
fn copies(
    alloc: Global,
    handlers: &[Box<dyn Handler>],
    kinds: &[u8],
) -> Result<List<Sheet>, AllocError>
    requires { AllByRecursion (λ kind. IsSome (first_of (flat_map (λ h. sheets_are h) handlers.now) kind)) kinds.now }
    ensures { IfOk result (λ sheets. AreSheetsOf kinds.now (flat_map (λ h. sheets_are h) handlers.now) sheets) }
{
    let mut sheets = Vec::new(alloc);
    for kind in kinds {
        sheets.push(sheet_copy(alloc, handlers, *kind)?)?;
    }
    Ok(List::of(sheets))
}

impl Registry {
    /// The registry of these handlers. No kind may have two sheets, and each kind of procedures must have one. It has their
    /// sheets for edition 0, and no other edition. What takes memory is the list of sheets.
    pub fn new(alloc: Global, handlers: Vec<Box<dyn Handler>>) -> Result<Registry, RegistryFault>
        ensures sheets { IfOk result (λ registry. sheets_of ⟦<dyn Handler as Handler>⟧ registry ≡ flat_map (λ h. sheets_are h) handlers.items) }
        ensures steps { IfOk result (λ registry. steps_of ⟦<dyn Handler as Handler>⟧ registry ≡ map (λ h. steps_are h) handlers.items) }
        ensures undos { IfOk result (λ registry. undos_of ⟦<dyn Handler as Handler>⟧ registry ≡ map (λ h. undos_are h) handlers.items) }
        ensures runs { IfOk result (λ registry. runs_of registry ≡ 0) }
        ensures once { IfOk result (λ registry. NoneTwice (sheets_of ⟦<dyn Handler as Handler>⟧ registry)) }
        ensures lists { IfOk result (λ registry. IsRegistry ⟦<dyn Handler as Handler>⟧ registry) }
        ensures learnt { IfOk result (λ registry. (edition : ℕ) → edition ≢ 0 → sheets_at registry edition ≡ None) }
        ensures err { IfErr result (λ fault. IsNoRegistry (flat_map (λ h. sheets_are h) handlers.items) fault) }
    {
        if let Some(kind) = lowest_twice(&handlers) {
            return Err(RegistryFault::Twice(kind));
        }
        if let Some(kind) = lowest_missing(&handlers) {
            return Err(RegistryFault::Missing(kind));
        }
        let Ok(whole) = copies(alloc, &handlers, all_kinds()) else {
            return Err(RegistryFault::Memory);
        };
        Ok(Registry {
            handlers,
            whole,
            learnt: Learnt::new(alloc),
            runs: 0,
        })
    }

    /// These are the sheets of an edition from here on. Where memory runs out it has those that it had.
    pub fn learn(&mut self, edition: u64, sheets: List<Sheet>) -> Result<(), AllocError>
        requires { AreSheets sheets }
        ensures own { OnOk result (sheets_at self.new edition ≡ Some sheets) }
        ensures others { (other : ℕ) → other ≢ edition → sheets_at self.new other ≡ sheets_at self.old other }
        ensures err { OnErr result (sheets_at self.new ≡ sheets_at self.old) }
        ensures handlers { handlers_of self.new ≡ handlers_of self.old }
        ensures whole { whole_of self.new ≡ whole_of self.old }
        ensures runs { runs_of self.new ≡ runs_of self.old }
    {
        self.learnt.put(edition, sheets)
    }

    // Whether the handler of the input's kind has the sheet of the input's edition.
    fn is_for_box(&self, at: &StepIn) -> bool
        requires { CanRunIn (sheets_at self.now at.now.edition) at.now }
        ensures { IsTrue result ↔ IsForBox ⟦<dyn Handler as Handler>⟧ self.now at.now }
    {
        let wanted = asked(&self.learnt, &self.whole, at);
        match self.find(at.kind) {
            Some(own) => own.sheet().same(wanted),
            None => false,
        }
    }

    // Calls the first handler that has the input's kind, once, by its turn, and leaves in `out` what its sheet says.
    fn run_box(&mut self, alloc: Global, at: &StepIn, out: &mut StepOut) -> Result<(), AllocError>
        requires { CanRun (sheets_of ⟦<dyn Handler as Handler>⟧ self.old) at.now }
        ensures out { OnOk result (answer_of (sheets_of ⟦<dyn Handler as Handler>⟧ self.old) at.now ≡ Some out.new) }
        ensures sheets { sheets_of ⟦<dyn Handler as Handler>⟧ self.new ≡ sheets_of ⟦<dyn Handler as Handler>⟧ self.old }
        ensures whole { whole_of self.new ≡ whole_of self.old }
        ensures learnt { sheets_at self.new ≡ sheets_at self.old }
        ensures runs { OnOk result (runs_of self.new ≡ min (runs_of self.old + 1) (2 ^ 64 - 1)) }
        ensures steps { OnOk result (steps_of ⟦<dyn Handler as Handler>⟧ self.new ≡ risen_at_if (is_step at.now.turn)
            (place_for at.now.kind (sheets_each ⟦<dyn Handler as Handler>⟧ self.old)) (steps_of ⟦<dyn Handler as Handler>⟧ self.old)) }
        ensures undos { OnOk result (undos_of ⟦<dyn Handler as Handler>⟧ self.new ≡ risen_at_if (not (is_step at.now.turn))
            (place_for at.now.kind (sheets_each ⟦<dyn Handler as Handler>⟧ self.old)) (undos_of ⟦<dyn Handler as Handler>⟧ self.old)) }
        ensures calls { OnOk result (CountsRise (calls_of ⟦<dyn Handler as Handler>⟧ self.old) (calls_of ⟦<dyn Handler as Handler>⟧ self.new)) }
        ensures idle { OnErr result (runs_of self.new ≡ runs_of self.old) }
        ensures idle_steps { OnErr result (steps_of ⟦<dyn Handler as Handler>⟧ self.new ≡ steps_of ⟦<dyn Handler as Handler>⟧ self.old) }
        ensures idle_undos { OnErr result (undos_of ⟦<dyn Handler as Handler>⟧ self.new ≡ undos_of ⟦<dyn Handler as Handler>⟧ self.old) }
    {
        let Some(place) = place_of(&self.handlers, at.kind) else {
            unreachable!()
        };
        let handler = &mut self.handlers[place];
        run_one(handler, alloc, at, out)?;
        self.runs = self.runs.saturating_add(1);
        Ok(())
    }

    // Leaves in `out` what the sheet of the input's kind says in its edition, and calls no handler.
    fn run_sheet(&mut self, alloc: Global, at: &StepIn, out: &mut StepOut) -> Result<(), AllocError>
        requires { CanRunIn (sheets_at self.old at.now.edition) at.now }
        ensures out { OnOk result (answer_in (sheets_at self.old at.now.edition) at.now ≡ Some out.new) }
        ensures handlers { handlers_of self.new ≡ handlers_of self.old }
        ensures sheets { sheets_of ⟦<dyn Handler as Handler>⟧ self.new ≡ sheets_of ⟦<dyn Handler as Handler>⟧ self.old }
        ensures whole { whole_of self.new ≡ whole_of self.old }
        ensures learnt { sheets_at self.new ≡ sheets_at self.old }
        ensures runs { OnOk result (runs_of self.new ≡ min (runs_of self.old + 1) (2 ^ 64 - 1)) }
        ensures idle { OnErr result (runs_of self.new ≡ runs_of self.old) }
        ensures idle_steps { steps_of ⟦<dyn Handler as Handler>⟧ self.new ≡ steps_of ⟦<dyn Handler as Handler>⟧ self.old }
        ensures idle_undos { undos_of ⟦<dyn Handler as Handler>⟧ self.new ≡ undos_of ⟦<dyn Handler as Handler>⟧ self.old }
    {
        *out = learnt_answer(alloc, &self.learnt, &self.whole, at)?;
        self.runs = self.runs.saturating_add(1);
        Ok(())
    }

    /// Leaves in `out` what the sheet of the input's kind says in the input's edition, whatever was called before. Where the
    /// handler of the kind has that sheet, it is called once, by the turn; else no handler is called. Where memory runs out
    /// `out` is any value, and isn't to be used.
    pub fn run(&mut self, alloc: Global, at: &StepIn, out: &mut StepOut) -> Result<(), AllocError>
        requires { CanRunIn (sheets_at self.old at.now.edition) at.now }
        ensures out { OnOk result (answer_in (sheets_at self.old at.now.edition) at.now ≡ Some out.new) }
        ensures sheets { sheets_of ⟦<dyn Handler as Handler>⟧ self.new ≡ sheets_of ⟦<dyn Handler as Handler>⟧ self.old }
        ensures whole { whole_of self.new ≡ whole_of self.old }
        ensures learnt { sheets_at self.new ≡ sheets_at self.old }
        ensures runs { OnOk result (runs_of self.new ≡ min (runs_of self.old + 1) (2 ^ 64 - 1)) }
        ensures steps { IsForBox ⟦<dyn Handler as Handler>⟧ self.old at.now → OnOk result (steps_of ⟦<dyn Handler as Handler>⟧ self.new ≡ risen_at_if (is_step at.now.turn)
            (place_for at.now.kind (sheets_each ⟦<dyn Handler as Handler>⟧ self.old)) (steps_of ⟦<dyn Handler as Handler>⟧ self.old)) }
        ensures undos { IsForBox ⟦<dyn Handler as Handler>⟧ self.old at.now → OnOk result (undos_of ⟦<dyn Handler as Handler>⟧ self.new ≡ risen_at_if (not (is_step at.now.turn))
            (place_for at.now.kind (sheets_each ⟦<dyn Handler as Handler>⟧ self.old)) (undos_of ⟦<dyn Handler as Handler>⟧ self.old)) }
        ensures calls { IsForBox ⟦<dyn Handler as Handler>⟧ self.old at.now → OnOk result (CountsRise (calls_of ⟦<dyn Handler as Handler>⟧ self.old) (calls_of ⟦<dyn Handler as Handler>⟧ self.new)) }
        ensures apart { (IsForBox ⟦<dyn Handler as Handler>⟧ self.old at.now → ⊥) → handlers_of self.new ≡ handlers_of self.old }
        ensures idle { OnErr result (runs_of self.new ≡ runs_of self.old) }
        ensures idle_steps { OnErr result (steps_of ⟦<dyn Handler as Handler>⟧ self.new ≡ steps_of ⟦<dyn Handler as Handler>⟧ self.old) }
        ensures idle_undos { OnErr result (undos_of ⟦<dyn Handler as Handler>⟧ self.new ≡ undos_of ⟦<dyn Handler as Handler>⟧ self.old) }
    {
        if self.is_for_box(at) {
            self.run_box(alloc, at, out)
        } else {
            self.run_sheet(alloc, at, out)
        }
    }

    /// How many calls of `run` were answered, up to 2^64 - 1, where the number stays.
    pub fn runs(&self) -> u64
        ensures { result ≡ runs_of self.now }
    {
        self.runs
    }

    /// The sheet of a kind.
    pub fn sheet(&self, kind: u8) -> &Valid
        requires { IsSome (first_of (sheets_of ⟦<dyn Handler as Handler>⟧ self.now) kind) }
        ensures { first_of (sheets_of ⟦<dyn Handler as Handler>⟧ self.now) kind ≡ Some result.now }
    {
        let Some(place) = place_of(&self.handlers, kind) else {
            unreachable!()
        };
        sheet_at(&self.handlers[place], kind)
    }

    /// The sheet of a kind, if a handler has one.
    pub fn find(&self, kind: u8) -> Option<&Valid>
        ensures { option_copied result ≡ first_of (sheets_of ⟦<dyn Handler as Handler>⟧ self.now) kind }
    {
        match place_of(&self.handlers, kind) {
            Some(place) => Some(sheet_at(&self.handlers[place], kind)),
            None => None,
        }
    }

    /// The sheets of all kinds of procedures, in the order of the kinds: a journal begins with them.
    pub fn sheets(&self) -> &List<Sheet>
        ensures { result.now ≡ whole_of self.now }
    {
        &self.whole
    }
}
