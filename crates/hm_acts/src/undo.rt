// What undoing a step answers.
ghost use Rattle.std.specs.Prelude.{◌≡◌, IfOk};
ghost use Rattle.hm_model.specs.Undoing.{turned as turned_edit, turned_round as round, undo_edits as edits_of, undo_followers as followers_of, undo_out as undone};

use crate::outs::{one_child, push_edit};
use hm_data::{Answer, Args, Back, Child, Edit, Goal, StepIn, StepOut};
use hm_names::{Copied, List, Pid};
use hm_views::closing::closed_by;
use hm_views::pieces::transits;
use std::alloc::{AllocError, Global};

fn turned(alloc: Global, edit: &Edit) -> Result<Edit, AllocError>
    ensures { IfOk result (λ x. x ≡ turned_edit edit.now) }
{
    let Edit { key, before, after } = edit.copy(alloc)?;
    Ok(Edit {
        key,
        before: after,
        after: before,
    })
}

// The edits turned round, the last first.
fn turned_round(alloc: Global, edits: &[Edit]) -> Result<Vec<Edit>, AllocError>
    ensures { IfOk result (λ v. v.items ≡ round edits.now) }
{
    let mut turned_edits = Vec::new(alloc);
    for edit in edits {
        push_edit(&mut turned_edits, turned(alloc, edit)?)?;
    }
    turned_edits.reverse();
    Ok(turned_edits)
}

fn undo_edits(alloc: Global, undo: Back, edits: &[Edit]) -> Result<Vec<Edit>, AllocError>
    ensures { IfOk result (λ v. v.items ≡ edits_of undo edits.now) }
{
    match undo {
        Back::Edits => turned_round(alloc, edits),
        _ => Ok(Vec::new(alloc)),
    }
}

// The procedures that go on with undoing a step.
fn undo_followers(
    alloc: Global,
    undo: Back,
    args: &Args,
    root: Pid,
) -> Result<Vec<Child>, AllocError>
    ensures { IfOk result (λ v. v.items ≡ followers_of undo args.now root) }
{
    match undo {
        Back::Sweep => one_child(alloc, Args::SweepLayout { root }),
        Back::Reopen => transits(alloc, Goal::Assign, &closed_by(alloc, args)?),
        _ => Ok(Vec::new(alloc)),
    }
}

/// What undoing a step answers and does.
pub(crate) fn undo_out(
    alloc: Global,
    undo: Back,
    at: &StepIn,
    edits: &[Edit],
) -> Result<StepOut, AllocError>
    ensures { IfOk result (λ out. out ≡ undone undo at.now.args at.now.root edits.now) }
{
    let edits = undo_edits(alloc, undo, edits)?;
    let followers = undo_followers(alloc, undo, &at.args, at.root)?;
    Ok(StepOut {
        answer: Answer::Undone,
        edits: List::of(edits),
        children: List::of(Vec::new(alloc)),
        call: None,
        place: None,
        followers: List::of(followers),
    })
}
