// The forms of what a step answers.
ghost use Rattle.std.specs.Prelude.{◌≡◌, ◌++◌, IfOk, OnOk, [], ◌∷◌};
ghost use Rattle.hm_data.specs.declared.args.Child.TheVariants as child_is;
ghost use Rattle.hm_model.specs.Outs.{gives as given, fails as failing, on_to as leads_to, ends_with as ended, checked as checking, edits_rows as editing, spawns as spawning, calls as calling, places as placing, goes_on as going_on};

use crate::sorts::NO_ROW;
use hm_data::{Answer, Args, Cause, Child, Edit, Place, StepOut, Told, Verb};
use hm_names::List;
use std::alloc::{AllocError, Global};

/// An answer with edits, and nothing else.
pub(crate) fn gives(alloc: Global, answer: Answer, edits: Vec<Edit>) -> StepOut
    ensures { result ≡ given answer edits.items }
{
    StepOut {
        answer,
        edits: List::of(edits),
        children: List::of(Vec::new(alloc)),
        call: None,
        place: None,
        followers: List::of(Vec::new(alloc)),
    }
}

/// A failure.
pub(crate) fn fails(alloc: Global, cause: Cause) -> StepOut
    ensures { result ≡ failing cause }
{
    gives(alloc, Answer::Fail(cause), Vec::new(alloc))
}

// The end, where no row follows, and else that row.
fn on_to(next: u8) -> Answer
    ensures { result ≡ leads_to next }
{
    if next == NO_ROW {
        Answer::Done(Told::Nothing)
    } else {
        Answer::More(next)
    }
}

/// On to the next row, or the end.
pub(crate) fn goes_on(alloc: Global, next: u8) -> StepOut
    ensures { result ≡ going_on next }
{
    gives(alloc, on_to(next), Vec::new(alloc))
}

/// The end.
pub(crate) fn ends_with(alloc: Global, told: Told) -> StepOut
    ensures { result ≡ ended told }
{
    gives(alloc, Answer::Done(told), Vec::new(alloc))
}

/// A check: the first cause against it, or on to the next row.
pub(crate) fn checked(alloc: Global, next: u8, cause: Option<Cause>) -> StepOut
    ensures { result ≡ checking next cause }
{
    match cause {
        None => gives(alloc, Answer::More(next), Vec::new(alloc)),
        Some(cause) => fails(alloc, cause),
    }
}

/// Edits, and on to the next row or the end.
pub(crate) fn edits_rows(alloc: Global, next: u8, edits: Vec<Edit>) -> StepOut
    ensures { result ≡ editing next edits.items }
{
    gives(alloc, on_to(next), edits)
}

/// Appends an edit.
pub(crate) fn push_edit(edits: &mut Vec<Edit>, edit: Edit) -> Result<(), AllocError>
    ensures { OnOk result (edits.new.items ≡ edits.old.items ++ edit ∷ []) }
{
    edits.push(edit)?;
    Ok(())
}

/// One edit, and on to the next row or the end.
pub(crate) fn edits_row(alloc: Global, next: u8, edit: Edit) -> Result<StepOut, AllocError>
    ensures { IfOk result (λ out. out ≡ editing next (edit ∷ [])) }
{
    let mut edits = Vec::new(alloc);
    push_edit(&mut edits, edit)?;
    Ok(edits_rows(alloc, next, edits))
}

/// Children, for whose end is waited; on to the next row where there are none.
pub(crate) fn spawns(alloc: Global, next: u8, children: Vec<Child>) -> StepOut
    ensures { result ≡ spawning next children.items }
{
    if children.is_empty() {
        return gives(alloc, Answer::More(next), Vec::new(alloc));
    }
    StepOut {
        answer: Answer::Wait(next),
        edits: List::of(Vec::new(alloc)),
        children: List::of(children),
        call: None,
        place: None,
        followers: List::of(Vec::new(alloc)),
    }
}

/// One procedure, as the one child.
pub(crate) fn one_child(alloc: Global, args: Args) -> Result<Vec<Child>, AllocError>
    ensures { IfOk result (λ v. v.items ≡ child_is.One args ∷ []) }
{
    let mut children = Vec::new(alloc);
    children.push(Child::One(args))?;
    Ok(children)
}

/// One child, for whose end is waited.
pub(crate) fn spawns_one(alloc: Global, next: u8, args: Args) -> Result<StepOut, AllocError>
    ensures { IfOk result (λ out. out ≡ spawning next (child_is.One args ∷ [])) }
{
    let children = one_child(alloc, args)?;
    Ok(spawns(alloc, next, children))
}

/// A call, whose report is awaited.
pub(crate) fn calls(alloc: Global, next: u8, verb: Verb) -> StepOut
    ensures { result ≡ calling next verb }
{
    StepOut {
        answer: Answer::Await(next),
        edits: List::of(Vec::new(alloc)),
        children: List::of(Vec::new(alloc)),
        call: Some(verb),
        place: None,
        followers: List::of(Vec::new(alloc)),
    }
}

/// An answer that gives the region a place, or leaves it its own.
pub(crate) fn places(alloc: Global, answer: Answer, place: Option<Place>) -> StepOut
    ensures { result ≡ placing answer place }
{
    StepOut {
        answer,
        edits: List::of(Vec::new(alloc)),
        children: List::of(Vec::new(alloc)),
        call: None,
        place,
        followers: List::of(Vec::new(alloc)),
    }
}
