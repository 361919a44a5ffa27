//! Sheets of all kinds, and whether they are valid.
ghost use Rattle.std.specs.Prelude.{◌≡◌, ◌↔◌, IfOk, IsTrue, MatchOption, map};
ghost use Rattle.hm_model.specs.Base.{AreSheets};
ghost use Rattle.hm_model.specs.Validity.{AllValid, IsValid};

use crate::check::check_sheet;
use crate::kinds::all_kinds;
use crate::valid::Valid;
use hm_data::Sheet;
use hm_names::Copied;
use std::alloc::{AllocError, Global};

// Whether there is one for each of these kinds, in their order.
fn have_kinds(sheets: &[Sheet], kinds: &[u8]) -> bool
    ensures { IsTrue result ↔ (map (λ sheet. sheet.kind) sheets.now ≡ kinds.now) }
{
    if sheets.len() != kinds.len() {
        return false;
    }
    for (place, sheet) in sheets.iter().enumerate() {
        if sheet.kind != kinds[place] {
            return false;
        }
    }
    true
}

fn is_valid(sheet: &Sheet) -> bool
    ensures { IsTrue result ↔ IsValid sheet.now }
{
    match check_sheet(sheet) {
        Ok(()) => true,
        Err(_) => false,
    }
}

fn are_valid(sheets: &[Sheet]) -> bool
    ensures { IsTrue result ↔ AllValid sheets.now }
{
    for sheet in sheets {
        if !is_valid(sheet) {
            return false;
        }
    }
    true
}

/// Whether these are valid sheets, one for each kind, in the order of the kinds.
pub fn are_sheets(sheets: &[Sheet]) -> bool
    ensures { IsTrue result ↔ AreSheets sheets.now }
{
    have_kinds(sheets, all_kinds()) && are_valid(sheets)
}

// The sheet, if it is valid.
fn if_valid(sheet: Sheet) -> Option<Valid>
    ensures { MatchOption result (IsValid sheet → ⊥) (λ valid. (valid ≡ sheet) × IsValid sheet) }
{
    match Valid::new(sheet) {
        Ok(valid) => Some(valid),
        Err(fault) => {
            drop(fault);
            None
        }
    }
}

/// Copies of sheets, where all of them are valid.
pub fn valid_copies(alloc: Global, sheets: &[Sheet]) -> Result<Option<Vec<Valid>>, AllocError>
    ensures { IfOk result (λ copies. MatchOption copies (AllValid sheets.now → ⊥) (λ list. (list.items ≡ sheets.now) × AllValid sheets.now)) }
{
    let mut copies = Vec::new(alloc);
    for sheet in sheets {
        let Some(valid) = if_valid(sheet.copy(alloc)?) else {
            return Ok(None);
        };
        copies.push(valid)?;
    }
    Ok(Some(copies))
}
