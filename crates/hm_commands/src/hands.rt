//! The registries of a run.
ghost use Rattle.std.specs.Prelude.{◌≡◌, ◌↔◌, map, IsTrue};
ghost use Rattle.hm_model.specs.Sheets.{sheet_for};
ghost use Rattle.hm_commands.specs.Hands.{AreEqual, HandsAgree};
ghost use Rattle.hm_sheet.specs.Registry.{sheets_of};

use hm_names::Same;
use hm_sheet::{Handler, Registry};

// Whether two registries have the same sheet of a kind, or both none.
fn same_sheet(one: &Registry, other: &Registry, kind: u8) -> bool
    ensures { IsTrue result ↔ (sheet_for (sheets_of ⟦<dyn Handler as Handler>⟧ one.now) kind ≡ sheet_for (sheets_of ⟦<dyn Handler as Handler>⟧ other.now) kind) }
{
    match (one.find(kind), other.find(kind)) {
        (Some(one), Some(other)) => one.sheet().same(other.sheet()),
        (None, None) => true,
        _ => false,
    }
}

// Whether two registries have the same sheets.
fn are_equal(one: &Registry, other: &Registry) -> bool
    ensures { IsTrue result ↔ AreEqual (sheets_of ⟦<dyn Handler as Handler>⟧ one.now) (sheets_of ⟦<dyn Handler as Handler>⟧ other.now) }
{
    for kind in 0..=u8::MAX {
        if !same_sheet(one, other, kind) {
            return false;
        }
    }
    true
}

/// Whether there are seventeen registries, one for the caller and sixteen for workers, whose sheets are equal.
pub fn hands_agree(hands: &[Registry]) -> bool
    ensures { IsTrue result ↔ HandsAgree (map (sheets_of ⟦<dyn Handler as Handler>⟧) hands.now) }
{
    let [first, ..] = hands else {
        return false;
    };
    if hands.len() != 17 {
        return false;
    }
    for other in hands {
        if !are_equal(first, other) {
            return false;
        }
    }
    true
}
