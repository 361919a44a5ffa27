//! The steps that may be undone, in their trees.
ghost use Rattle.std.specs.Prelude.{◌≡◌, ◌+◌, ◌<◌, ◌≤◌, ◌^◌, ◌∷◌, length, is_some, IfOk};
ghost use Rattle.hm_model.specs.Answers.{failing};
ghost use Rattle.hm_model.specs.Apart.{tree_of as tree_in};
ghost use Rattle.hm_model.specs.Editions.{editions};
ghost use Rattle.hm_model.specs.Rules.{IsLegal};
ghost use Rattle.hm_model.specs.Sheets.{row_in, sheet_for as sheet_among, undo_by};
ghost use Rattle.hm_model.specs.Tree.{pid_of, root_of as root_in};
ghost use Rattle.hm_procedures.specs.Kept.{args_made};
ghost use Rattle.hm_undo.specs.Laws.{Tells, has_undo as undoes};
ghost use Rattle.hm_records.specs.Parts.{step_left as left_by};
ghost use Rattle.hm_records.specs.Records.{AreForgotten, is_open};

use crate::records::Records;
use hm_data::{Answer, Args, Back, Entry};
use hm_names::{Copied, List, Pid};
use hm_procedures::Procedures;
use hm_sheet::{Valid, sheet_for};
use hm_undo::laws::stacks_tell;
use hm_undo::{Stack, Step};
use std::alloc::{AllocError, Global};

// The root of a procedure, 0 where there is none.
fn root_of(past: &Procedures, pid: Pid) -> Pid
    ensures { result ≡ pid_of (root_in past.now.past pid.0) }
{
    match past.find(pid) {
        Some(record) => record.root,
        None => Pid(0),
    }
}

// The root of the tree that an entry belongs to, 0 where it belongs to none.
pub(crate) fn tree_of(past: &Procedures, entry: &Entry) -> Pid
    ensures { result ≡ pid_of (tree_in past.now.past entry.now) }
{
    match entry {
        Entry::Start { sheets: _ }
        | Entry::Up { server: _ }
        | Entry::Base { part: _ }
        | Entry::Adopt { sheets: _ } => Pid(0),
        Entry::Submit {
            nonce: _,
            request: _,
        }
        | Entry::Down { server: _ } => Pid(past.last_pid() + 1),
        Entry::Step {
            pid,
            pick: _,
            out: _,
        } => root_of(past, *pid),
        Entry::Undo {
            pid,
            row: _,
            out: _,
        } => root_of(past, *pid),
        Entry::Report { call, told: _ } => root_of(past, *call),
        Entry::Abort { pid } => root_of(past, *pid),
    }
}

// Whether an undo of a row may be left.
fn has_undo(undo: Back) -> bool
    ensures { result ≡ undoes undo }
{
    match undo {
        Back::Nothing => false,
        Back::Edits | Back::Sweep | Back::Reopen => true,
    }
}

// Whether a step failed.
fn is_failure(answer: &Answer) -> bool
    ensures { result ≡ is_some (failing answer.now) }
{
    match answer {
        Answer::Fail(_) => true,
        _ => false,
    }
}

// How the row of a kind at a place is undone.
fn undo_at(sheets: &[Valid], kind: u8, place: u8) -> Back
    ensures { result ≡ undo_by (row_in (sheet_among sheets.now kind) place) }
{
    let Some(valid) = sheet_for(sheets, kind) else {
        return Back::Nothing;
    };
    match valid.sheet().rows.as_slice().get(place as usize) {
        Some(row) => row.undo,
        None => Back::Nothing,
    }
}

// The step that an entry leaves to be undone.
pub(crate) fn step_left(
    alloc: Global,
    records: &Records,
    entry: &Entry,
) -> Result<Option<Step>, AllocError>
    ensures { IfOk result (λ step. step ≡ left_by records.now.past entry.now) }
{
    let Entry::Step { pid, pick: _, out } = entry else {
        return Ok(None);
    };
    let Some(record) = records.procedures().find(*pid) else {
        return Ok(None);
    };
    let undo = undo_at(records.sheets_of(record.edition), record.kind, record.row);
    if !has_undo(undo) || is_failure(&out.answer) {
        return Ok(None);
    }
    Ok(Some(Step {
        pid: *pid,
        row: record.row,
        edits: out.edits.copy(alloc)?,
    }))
}

// Pushes a step that is left to be undone, and pops one that is undone.
fn change_stack(stack: &mut Stack, past: &Procedures, entry: &Entry, tree: Pid, step: Option<Step>)
    requires legal { IsLegal (entry.now ∷ past.now.past) }
    requires tells { Tells (is_open past.now.past) past.now.past stack.old.stacks }
    requires forgotten { AreForgotten past.now.past stack.old.stacks }
    requires tree { tree ≡ pid_of (tree_in past.now.past entry.now) }
    requires step { step ≡ left_by past.now.past entry.now }
    requires room { 1 ≤ stack.old.spare }
    ensures tells { Tells (is_open past.now.past) (entry.now ∷ past.now.past) stack.new.stacks }
    ensures forgotten { AreForgotten past.now.past stack.new.stacks }
    ensures spare { stack.old.spare ≤ stack.new.spare + 1 }
    ensures room { stack.new.room ≡ stack.old.room }
{
    stacks_tell();
    let _past = past;
    if let Some(step) = step {
        stack.push(tree, step.pid, step.row, step.edits);
        return;
    }
    if let Entry::Undo {
        pid: _,
        row: _,
        out: _,
    } = entry
    {
        stack.pop(tree);
    }
}

// Takes an entry in among the procedures and the steps that may be undone: those of a root that ends by it are forgotten.
pub(crate) fn enter_tree(
    procedures: &mut Procedures,
    stack: &mut Stack,
    entry: &Entry,
    tree: Pid,
    made: List<Args>,
    step: Option<Step>,
)
    requires legal { IsLegal (entry.now ∷ procedures.old.past) }
    requires few { editions (entry.now ∷ procedures.old.past) < 2 ^ 64 }
    requires tells { Tells (is_open procedures.old.past) procedures.old.past stack.old.stacks }
    requires forgotten { AreForgotten procedures.old.past stack.old.stacks }
    requires tree { tree ≡ pid_of (tree_in procedures.old.past entry.now) }
    requires made { made ≡ args_made procedures.old.past entry.now }
    requires step { step ≡ left_by procedures.old.past entry.now }
    requires procedure_room { length made ≤ procedures.old.spare }
    requires step_room { 1 ≤ stack.old.spare }
    ensures past { procedures.new.past ≡ entry.now ∷ procedures.old.past }
    ensures tells { Tells (is_open procedures.new.past) procedures.new.past stack.new.stacks }
    ensures forgotten { AreForgotten procedures.new.past stack.new.stacks }
    ensures procedure_spare { procedures.old.spare ≤ procedures.new.spare + length made }
    ensures step_spare { stack.old.spare ≤ stack.new.spare + 1 }
    ensures procedure_memory { procedures.new.room ≡ procedures.old.room }
    ensures step_memory { stack.new.room ≡ stack.old.room }
{
    stacks_tell();
    change_stack(stack, procedures, entry, tree, step);
    let nothing_left = stack.next_undo(tree).is_none();
    procedures.enter(entry, made, nothing_left);
    if procedures.has_ended(tree) {
        stack.forget(tree);
    }
}
