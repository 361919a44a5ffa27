//! Tests of the sheets that a journal begins with.
ghost use Rattle.std.specs.Prelude.{◌≡◌, ◌↔◌, option_copied, IsTrue, IfOk, IfSome, IfNone};
ghost use Rattle.hm_model.specs.Sheets.{sheet_for as first_of};
ghost use Rattle.hm_journal.specs.Stored.{SameSheets};
ghost use Rattle.hm_journal.specs.Verdict.{IsLowestDifference};

use hm_data::Sheet;
use hm_names::{Copied, List, Same};
use std::alloc::{AllocError, Global};

// The first sheet of a kind.
fn sheet_for(sheets: &[Sheet], kind: u8) -> Option<&Sheet>
    ensures { option_copied result ≡ first_of sheets.now kind }
{
    for sheet in sheets {
        if sheet.kind == kind {
            return Some(sheet);
        }
    }
    None
}

// Whether the kind has the same sheet in both.
fn is_same(sheets: &[Sheet], others: &[Sheet], kind: u8) -> bool
    ensures { IsTrue result ↔ (first_of sheets.now kind ≡ first_of others.now kind) }
{
    match (sheet_for(sheets, kind), sheet_for(others, kind)) {
        (None, None) => true,
        (Some(sheet), Some(other)) => sheet.same(other),
        _ => false,
    }
}

// The lowest kind whose sheets differ.
pub(crate) fn lowest_difference(sheets: &[Sheet], others: &[Sheet]) -> Option<u8>
    ensures some { IfSome result (IsLowestDifference sheets.now others.now) }
    ensures none { IfNone result (SameSheets sheets.now others.now) }
{
    for kind in 0..=u8::MAX {
        if !is_same(sheets, others, kind) {
            return Some(kind);
        }
    }
    None
}

// An owned copy.
pub(crate) fn copy_sheets(alloc: Global, sheets: &[Sheet]) -> Result<List<Sheet>, AllocError>
    ensures { IfOk result (λ copy. copy ≡ sheets.now) }
{
    let mut copy = Vec::new(alloc);
    for sheet in sheets {
        copy.push(sheet.copy(alloc)?)?;
    }
    Ok(List::of(copy))
}
