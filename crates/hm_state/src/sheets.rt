//! The sheets that a journal begins with.
ghost use Rattle.std.specs.Prelude.{◌≡◌, IfOk};
ghost use Rattle.hm_model.specs.Validity.{AllValid};

use hm_data::Sheet;
use hm_sheet::{Valid, valid_copies};
use std::alloc::{AllocError, Global};

// The sheets, which are valid.
pub(crate) fn valid_sheets(alloc: Global, sheets: &[Sheet]) -> Result<Vec<Valid>, AllocError>
    requires { AllValid sheets.now }
    ensures { IfOk result (λ valid. valid.items ≡ sheets.now) }
{
    match valid_copies(alloc, sheets)? {
        Some(valid) => Ok(valid),
        None => unreachable!(),
    }
}
