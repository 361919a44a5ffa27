//! The rule of an undo.
ghost use Rattle.std.specs.Prelude.{◌↔◌, IsTrue};
ghost use Rattle.hm_model.specs.Rules.{IsLatest};

use crate::seen::find;
use hm_names::Pid;
use hm_records::Records;

/// Whether the step is the latest that can be undone of a failed root whose descendants have ended.
pub(crate) fn is_latest(records: &Records, pid: Pid, row: u8) -> bool
    ensures { IsTrue result ↔ IsLatest records.now.past pid.0 row }
{
    let Some(found) = find(records, pid) else {
        return false;
    };
    if !records.procedures().undoes(found.root) {
        return false;
    }
    match records.stack().next_undo(found.root) {
        Some((latest, its_row)) => latest == pid && its_row == row,
        None => false,
    }
}
