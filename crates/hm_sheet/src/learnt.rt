// The sheets of editions that a registry learnt.
ghost use Rattle.std.specs.Prelude.{◌≡◌, ◌≢◌, ℕ, [], IfOk, OnErr, OnOk, Some, option_copied};
ghost use Rattle.hm_sheet.specs.Learnt.{CanRunIn, answer_in, learnt_at, or_begun, place_in, sheet_in};

use crate::among::listed;
use crate::plain::sheet_step;
use hm_data::{Sheet, StepIn, StepOut};
use hm_names::List;
use std::alloc::{AllocError, Global};
use std::marker::Model;

// The sheets of an edition.
#[derive(Drop)]
struct Edition {
    number: u64,
    sheets: List<Sheet>,
}

/// Sheets of editions. Contracts see the editions with their sheets.
#[derive(Drop)]
pub(crate) struct Learnt {
    editions: Vec<Edition>,
}

impl Model for Learnt {
    ghost use Rattle.std.specs.Prelude.{List as PlainList};
    ghost use Rattle.hm_sheet.specs.declared.learnt.Edition.{Edition};

    ghost Value = { PlainList Edition };

    ghost view = { λ s. s.editions.items };
}

// How many editions stand before the first of this number.
fn place_of(editions: &[Edition], number: u64) -> usize
    ensures { result ≡ place_in editions.now number }
{
    for (place, edition) in editions.iter().enumerate() {
        if edition.number == number {
            return place;
        }
    }
    editions.len()
}

// The sheets of the first edition of this number.
fn first_of(editions: &[Edition], number: u64) -> Option<&List<Sheet>>
    ensures { option_copied result ≡ learnt_at editions.now number }
{
    for edition in editions {
        if edition.number == number {
            return Some(&edition.sheets);
        }
    }
    None
}

impl Learnt {
    /// No edition.
    pub(crate) fn new(alloc: Global) -> Learnt
        ensures { result ≡ [] }
    {
        Learnt {
            editions: Vec::new(alloc),
        }
    }

    /// The sheets of an edition.
    pub(crate) fn find(&self, number: u64) -> Option<&List<Sheet>>
        ensures { option_copied result ≡ learnt_at self.now number }
    {
        first_of(&self.editions, number)
    }

    /// These are the sheets of an edition from here on.
    pub(crate) fn put(&mut self, number: u64, sheets: List<Sheet>) -> Result<(), AllocError>
        ensures own { OnOk result (learnt_at self.new number ≡ Some sheets) }
        ensures others { (other : ℕ) → other ≢ number → learnt_at self.new other ≡ learnt_at self.old other }
        ensures err { OnErr result (self.new ≡ self.old) }
    {
        let place = place_of(&self.editions, number);
        let edition = Edition { number, sheets };
        if place < self.editions.len() {
            self.editions[place] = edition;
        } else {
            self.editions.push(edition)?;
        }
        Ok(())
    }
}

// The sheets of an edition, among what was learnt and the sheets of edition 0.
fn sheets_of<'a>(
    learnt: &'a Learnt,
    begun: &'a List<Sheet>,
    edition: u64,
) -> Option<&'a List<Sheet>>
    ensures { option_copied result ≡ or_begun (learnt_at learnt.now edition) begun.now edition }
{
    match learnt.find(edition) {
        Some(sheets) => Some(sheets),
        None if edition == 0 => Some(begun),
        None => None,
    }
}

/// The sheet of the input's kind in its edition, among what was learnt and the sheets of edition 0.
pub(crate) fn asked<'a>(learnt: &'a Learnt, begun: &'a List<Sheet>, at: &StepIn) -> &'a Sheet
    requires { CanRunIn (or_begun (learnt_at learnt.now at.now.edition) begun.now at.now.edition) at.now }
    ensures { sheet_in (or_begun (learnt_at learnt.now at.now.edition) begun.now at.now.edition) at.now.kind ≡ Some result.now }
{
    let Some(sheets) = sheets_of(learnt, begun, at.edition) else {
        unreachable!()
    };
    match listed(sheets.as_slice(), at.kind) {
        Some(sheet) => sheet,
        None => unreachable!(),
    }
}

/// What that sheet says at the input.
pub(crate) fn learnt_answer(
    alloc: Global,
    learnt: &Learnt,
    begun: &List<Sheet>,
    at: &StepIn,
) -> Result<StepOut, AllocError>
    requires { CanRunIn (or_begun (learnt_at learnt.now at.now.edition) begun.now at.now.edition) at.now }
    ensures { IfOk result (λ out. answer_in (or_begun (learnt_at learnt.now at.now.edition) begun.now at.now.edition) at.now ≡ Some out) }
{
    sheet_step(alloc, asked(learnt, begun, at), at)
}
