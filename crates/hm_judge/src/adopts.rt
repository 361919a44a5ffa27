//! The rule of new sheets.
ghost use Rattle.std.specs.Prelude.{◌≡◌, ◌≢◌, ◌↔◌, IsTrue};
ghost use Rattle.hm_model.specs.Base.{AreSheets};
ghost use Rattle.hm_model.specs.Sheets.{sheets_of};

use hm_data::Sheet;
use hm_names::Same;
use hm_records::Records;
use hm_sheet::{Valid, are_sheets};

// Whether they are those, one by one.
fn are_same(sheets: &[Sheet], others: &[Valid]) -> bool
    ensures { IsTrue result ↔ (sheets.now ≡ others.now) }
{
    if sheets.len() != others.len() {
        return false;
    }
    for (place, sheet) in sheets.iter().enumerate() {
        if !sheet.same(others[place].sheet()) {
            return false;
        }
    }
    true
}

/// Whether sheets may be adopted: they are sheets of all kinds, and not those in force.
pub(crate) fn can_adopt(records: &Records, sheets: &[Sheet]) -> bool
    ensures { IsTrue result ↔ (AreSheets sheets.now × (sheets.now ≢ sheets_of records.now.past)) }
{
    are_sheets(sheets) && !are_same(sheets, records.sheets())
}
