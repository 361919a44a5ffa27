//! The sheets that a head tells.
ghost use Rattle.std.specs.Prelude.{◌≡◌, IfOk, MatchOption};
ghost use Rattle.hm_model.specs.Base.{AreSheets};

use hm_data::Sheet;
use hm_sheet::{Valid, are_sheets, valid_copies};
use std::alloc::{AllocError, Global};

// Copies of sheets, where a journal may begin with them: they are valid, one for each kind, in the order of the kinds.
pub(crate) fn taken_sheets(
    alloc: Global,
    sheets: &[Sheet],
) -> Result<Option<Vec<Valid>>, AllocError>
    ensures { IfOk result (λ copies. MatchOption copies (AreSheets sheets.now → ⊥) (λ list. (list.items ≡ sheets.now) × AreSheets sheets.now)) }
{
    if !are_sheets(sheets) {
        return Ok(None);
    }
    valid_copies(alloc, sheets)
}
