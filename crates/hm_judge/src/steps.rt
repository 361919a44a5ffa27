//! Who may make a step.
ghost use Rattle.std.specs.Prelude.{◌≡◌, ◌↔◌, ◌≤◌, [], IsTrue};
ghost use Rattle.hm_locks.specs.Book.{IsEnlisted, IsFree as IsFreeIn};
ghost use Rattle.hm_model.specs.Holding.{IsFree};
ghost use Rattle.hm_model.specs.Rest.{MayStep};

use crate::seen::{calls_fenced, find};
use hm_data::Phase;
use hm_lists::Steps;
use hm_locks::LockBook;
use hm_locks::laws::free_in_book_is_free;
use hm_names::Pid;
use hm_records::Records;
use std::marker::Brand;
use std::sync::ledger::{Blank, Ledger};

/// Whether the procedure is there and may make a step: it is runnable, or its call was answered or goes to a server that is
/// fenced.
pub fn may_step(records: &Records, pid: Pid) -> bool
    ensures { IsTrue result ↔ MayStep records.now.past pid.0 }
{
    let Some(found) = find(records, pid) else {
        return false;
    };
    match found.phase {
        Phase::Runnable => true,
        Phase::Awaiting => {
            records.procedures().report(pid).is_some() || calls_fenced(records, &found.args)
        }
        _ => false,
    }
}

// Whether nobody holds what stands in a procedure's way, by a lock book, with a count of steps of its own.
fn is_free_in<L: Ledger>(book: &LockBook, pid: Pid, blank: Blank) -> bool
    requires name { blank.name ≡ L.name }
    requires parts { blank.parts ≡ L.parts }
    requires some { 1 ≤ L.parts }
    requires enlisted { IsEnlisted book.now.rows pid.0 }
    ensures { IsTrue result ↔ IsFreeIn book.now.rows pid.0 }
{
    let mut steps = Steps::<L>::new(blank);
    book.first_conflict(pid, &mut steps).is_none()
}

/// Whether a procedure that may make a step conflicts with none that holds, that is one that has a step and hasn't ended.
pub(crate) fn is_free(records: &Records, pid: Pid) -> bool
    requires { MayStep records.now.past pid.0 }
    ensures { IsTrue result ↔ IsFree records.now.past [] pid.0 }
{
    let _legal = records.procedures();
    free_in_book_is_free();
    is_free_in::<Brand>(records.book(), pid, Blank::new(1))
}
