ghost use Rattle.std.specs.Prelude.{◌≡◌, ◌++◌, [], ◌∷◌, ◌≤◌, IfErr, MatchResult, slice_get};
ghost use Rattle.hm_model.specs.Validity.{first_broken, row_rules, rules_of_row, is_not as differs, IsValid, IsFirstFault};

use crate::fault::SheetFault;
use crate::rules::broken_by_row;
use crate::walk::{misfit, row_at};
use hm_data::{Row, Sheet};

// One more than the last place at which a rule can be broken first: a row there breaks the rule of how many there may be.
const PLACES: u8 = 33;

// Whether the place is not the one that is there.
fn is_not(place: usize, misfit: Option<usize>) -> bool
    ensures { result ≡ differs place misfit }
{
    match misfit {
        None => true,
        Some(other) => other != place,
    }
}

fn broken_by_fit(place: usize, misfit: Option<usize>) -> Option<u8>
    ensures { result ≡ first_broken ((8, differs place misfit) ∷ []) }
{
    if is_not(place, misfit) { None } else { Some(8) }
}

// The first rule that a row breaks at its place.
fn broken_by(kind: u8, rows: &[Row], misfit: Option<usize>, place: usize, row: Row) -> Option<u8>
    ensures { result ≡ first_broken (row_rules kind rows.now place row ++ (8, differs place misfit) ∷ []) }
{
    match broken_by_row(kind, rows, place, row) {
        Some(rule) => Some(rule),
        None => broken_by_fit(place, misfit),
    }
}

// The first rule that rows of a kind break at a place, where they are not those of the kind at `misfit`.
fn broken_at(kind: u8, rows: &[Row], misfit: Option<usize>, place: usize) -> Option<u8>
    ensures { result
        ≡ first_broken (rules_of_row kind rows.now place (slice_get rows.now place) ++ (8, differs place misfit) ∷ []) }
{
    match row_at(rows, place) {
        Some(row) => broken_by(kind, rows, misfit, place, row),
        None => broken_by_fit(place, misfit),
    }
}

/// Whether a sheet is valid, and if not, the lowest row at which it breaks a rule, with the lowest rule that it breaks
/// there. A sheet is valid where
///
/// 1. each next is a row of the sheet or the end,
/// 2. it has at most 32 rows,
/// 3. a row after the point leads to no row before it,
/// 4. a row after the point is no check and asks for no layout,
/// 5. a row that asks for a layout leads to no row after the point,
/// 6. an edit before the point that doesn't end a root is undone by its edits,
/// 7. what a row edits is asked for exclusively by the root of its kind,
/// 8. the rows that are led through are those that the kind lists.
pub fn check_sheet(sheet: &Sheet) -> Result<(), SheetFault>
    ensures exact { MatchResult result (λ _. IsValid sheet.now) (λ fault. IsFirstFault sheet.now fault.row fault.rule) }
    ensures near { IfErr result (λ fault. fault.row ≤ 32) }
{
    let rows = sheet.rows.as_slice();
    let misfit = misfit(sheet);
    for place in 0..PLACES {
        if let Some(rule) = broken_at(sheet.kind, rows, misfit, usize::from(place)) {
            return Err(SheetFault { row: place, rule });
        }
    }
    Ok(())
}
