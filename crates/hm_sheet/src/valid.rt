ghost use Rattle.std.specs.Prelude.{◌≡◌, IfOk, IfErr};
ghost use Rattle.hm_model.specs.Validity.{IsValid, IsFirstFault};

use crate::check::check_sheet;
use crate::fault::SheetFault;
use hm_data::Sheet;
use std::marker::Model;

/// A valid sheet.
#[derive(Drop)]
pub struct Valid {
    inner: Sheet,
}

impl Model for Valid {
    ghost use Rattle.hm_data.specs.declared.sheet.Sheet.{Sheet};
    ghost use Rattle.hm_model.specs.Validity.{IsValid};

    ghost Value = { Sheet };

    ghost view = { λ s. s.inner };

    ghost invariant = { λ s. IsValid s.inner };
}

impl Valid {
    /// The sheet, if it is valid; else the sheet comes back with its first fault.
    pub fn new(sheet: Sheet) -> Result<Valid, (Sheet, SheetFault)>
        ensures ok { IfOk result (λ valid. (valid ≡ sheet) × IsValid sheet) }
        ensures err { IfErr result (λ back. (back.0 ≡ sheet) × IsFirstFault sheet back.1.row back.1.rule) }
    {
        match check_sheet(&sheet) {
            Ok(()) => Ok(Valid { inner: sheet }),
            Err(fault) => Err((sheet, fault)),
        }
    }

    /// The sheet.
    pub fn sheet(&self) -> &Sheet
        ensures value { result.now ≡ self.now }
        ensures valid { IsValid self.now }
    {
        &self.inner
    }
}
