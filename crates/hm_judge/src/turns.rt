//! What undoing the latest step of a failed root sees.
ghost use Rattle.std.specs.Prelude.{◌≡◌, IfOk};
ghost use Rattle.hm_model.specs.Rest.{MayUndo};
ghost use Rattle.hm_judge.specs.Turns.{IsLatestOf, turned_to};

use crate::copies::beside;
use crate::seen::find;
use hm_data::{Args, Edit, StepIn, Turn};
use hm_names::{Copied, List, Pid};
use hm_records::Records;
use std::alloc::{AllocError, Global};

// The latest step of a root's tree that can be undone, in memory of its own.
#[derive(Drop)]
pub(crate) struct Latest {
    pid: Pid,
    kind: u8,
    row: u8,
    args: Args,
    edits: List<Edit>,
}

// Copies of edits.
fn copies_of(alloc: Global, edits: &[Edit]) -> Result<List<Edit>, AllocError>
    ensures { IfOk result (λ copies. copies ≡ edits.now) }
{
    let mut copies = Vec::new(alloc);
    for edit in edits {
        copies.push(edit.copy(alloc)?)?;
    }
    Ok(List::of(copies))
}

/// The latest step of a failed root's tree that can be undone.
pub(crate) fn latest_of(alloc: Global, records: &Records, root: Pid) -> Result<Latest, AllocError>
    requires { MayUndo records.now.past root.0 }
    ensures { IfOk result (IsLatestOf records.now.past root.0) }
{
    let Some((pid, row)) = records.stack().next_undo(root) else {
        unreachable!()
    };
    let Some(found) = find(records, pid) else {
        unreachable!()
    };
    let args = found.args.copy(alloc)?;
    let (edits, args) = beside(copies_of(alloc, records.stack().edits(root)), args)?;
    Ok(Latest {
        pid,
        kind: found.kind,
        row,
        args,
        edits,
    })
}

/// What undoing that step sees, by what a step of its root would see.
pub(crate) fn undoing(at: StepIn, latest: Latest) -> StepIn
    ensures { result ≡ turned_to at latest }
{
    let mut at = at;
    at.pid = latest.pid;
    at.kind = latest.kind;
    at.row = latest.row;
    at.args = latest.args;
    at.turn = Turn::Undo {
        edits: latest.edits,
    };
    at
}
