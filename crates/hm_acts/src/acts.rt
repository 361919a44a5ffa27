// What each act answers.
ghost use Rattle.std.specs.Prelude.{◌≡◌, ◌≤◌, ◌<◌, ◌^◌, false, IsTrue, IfOk};
ghost use Rattle.std.specs.List.{AllByRecursion};
ghost use Rattle.hm_model.specs.ActSorts.{is_check as checks, is_edit as edits};
ghost use Rattle.hm_model.specs.Acts.{act_answer};
ghost use Rattle.hm_model.specs.Evaluation.{named_ids};
ghost use Rattle.hm_model.specs.Views.{first_id_of as first_id};

use crate::calls::{
    call_assign, call_close, call_fence, call_layout, call_sweep, settle_call, settle_layout,
};
use crate::crashes::{fence, reassign};
use crate::merges::{check_merge, update_merge_meta};
use crate::namespaces::{
    add_namespace, check_free_namespace, check_namespace_empty, drop_namespace,
};
use crate::regions::{
    add_region_rows, add_regions, close_regions, drop_region_rows, drop_regions, open_new,
    open_regions,
};
use crate::sorts::{is_check, is_edit};
use crate::splits::{check_split, close_parents, finish, update_split_meta};
use crate::tables::{
    add_table, check_table_disabled, check_table_enabled, check_table_free, drop_table, lay_out,
    set_state, set_version,
};
use crate::transits::{
    check_move, close_there, confirm_closed, confirm_opened, get_assign_candidate, open_there,
};
use hm_data::{Act, Row, StepIn, StepOut, TableState};
use hm_views::lookup::Rows;
use std::alloc::{AllocError, Global};

// What an act answers that only tests.
fn check(alloc: Global, act: Act, next: u8, at: &StepIn) -> Result<StepOut, AllocError>
    requires { IsTrue (checks act) }
    ensures { IfOk result (λ out. out ≡ act_answer act next at.now) }
{
    let args = &at.args;
    let rows = at.rows.as_slice();
    match act {
        Act::CheckNamespaceFree => Ok(check_free_namespace(alloc, next, args, rows)),
        Act::CheckNamespaceEmpty => Ok(check_namespace_empty(alloc, next, args, rows)),
        Act::CheckTableFree => Ok(check_table_free(alloc, next, args, rows)),
        Act::CheckTableDisabled => Ok(check_table_disabled(alloc, next, args, rows)),
        Act::CheckTableEnabled => Ok(check_table_enabled(alloc, next, args, rows)),
        Act::CheckSplit => Ok(check_split(alloc, next, args, rows)),
        Act::CheckMerge => check_merge(alloc, next, args, rows),
        Act::CheckMove => Ok(check_move(alloc, next, args, rows)),
        _ => unreachable!(),
    }
}

// What an act answers that edits the catalog.
fn edit(alloc: Global, act: Act, next: u8, at: &StepIn) -> Result<StepOut, AllocError>
    requires edits { IsTrue (edits act) }
    requires ids { AllByRecursion (λ id. 1 ≤ id) (named_ids at.now.args) }
    requires first { first_id at.now.args < 2 ^ 32 }
    ensures { IfOk result (λ out. out ≡ act_answer act next at.now) }
{
    let args = &at.args;
    let rows = &Rows::of(at.rows.as_slice());
    match act {
        Act::AddNamespace => add_namespace(alloc, next, args, rows),
        Act::DropNamespace => drop_namespace(alloc, next, args, rows),
        Act::AddTable => add_table(alloc, next, args, rows),
        Act::SetEnabling => set_state(alloc, TableState::Enabling, next, args, rows),
        Act::SetEnabled => set_state(alloc, TableState::Enabled, next, args, rows),
        Act::DropTable => drop_table(alloc, next, args, rows),
        Act::SetDisabling => set_state(alloc, TableState::Disabling, next, args, rows),
        Act::SetDisabled => set_state(alloc, TableState::Disabled, next, args, rows),
        Act::SetVersion => set_version(alloc, next, args, rows),
        Act::UpdateSplitMeta => update_split_meta(alloc, next, args, rows),
        Act::UpdateMergeMeta => update_merge_meta(alloc, next, args, rows),
        Act::AddRegionRows => add_region_rows(alloc, next, args, rows),
        Act::DropRegionRows => drop_region_rows(alloc, next, args, rows),
        _ => unreachable!(),
    }
}

// What an act answers that neither tests nor edits: it asks for other procedures or calls, or takes in what they told.
fn ask(alloc: Global, act: Act, next: u8, at: &StepIn) -> Result<StepOut, AllocError>
    requires checks { checks act ≡ false }
    requires edits { edits act ≡ false }
    requires first { first_id at.now.args < 2 ^ 32 }
    ensures { IfOk result (λ out. out ≡ act_answer act next at.now) }
{
    let args = &at.args;
    let rows = at.rows.as_slice();
    match act {
        Act::Layout => lay_out(alloc, next, at.root),
        Act::AddRegions => add_regions(alloc, next, args),
        Act::OpenRegions => open_regions(alloc, next, args, rows),
        Act::DropRegions => drop_regions(alloc, next, args, rows),
        Act::CloseRegions => close_regions(alloc, next, args, rows),
        Act::CloseParent | Act::CloseParents => close_parents(alloc, next, args),
        Act::OpenDaughters => open_new(alloc, 2, next, args),
        Act::OpenMerged => open_new(alloc, 1, next, args),
        Act::Finish => Ok(finish(alloc)),
        Act::GetAssignCandidate => get_assign_candidate(alloc, next, at),
        Act::Open => open_there(alloc, next, args, &at.place),
        Act::ConfirmOpened => confirm_opened(alloc, next, at.ends.as_slice(), &at.place),
        Act::Close => close_there(alloc, next, args, &at.place, at.fenced),
        Act::ConfirmClosed => Ok(confirm_closed(alloc, args, at.ends.as_slice())),
        Act::Fence => fence(alloc, next, args),
        Act::Reassign => reassign(alloc, next, at.on_server.as_slice()),
        Act::CallAssign => call_assign(alloc, next, args, at.fenced),
        Act::CallClose => call_close(alloc, next, args, at.fenced),
        Act::CallFence => call_fence(alloc, next, args),
        Act::CallLayout => Ok(call_layout(alloc, next, args)),
        Act::CallSweep => Ok(call_sweep(alloc, next, args)),
        Act::Settle => Ok(settle_call(alloc, at.fenced, at.report)),
        Act::SettleLayout => Ok(settle_layout(alloc, at.report)),
        _ => unreachable!(),
    }
}

/// What an act answers that leads to a row.
pub(crate) fn act_out(alloc: Global, row: Row, at: &StepIn) -> Result<StepOut, AllocError>
    requires ids { AllByRecursion (λ id. 1 ≤ id) (named_ids at.now.args) }
    requires first { first_id at.now.args < 2 ^ 32 }
    ensures { IfOk result (λ out. out ≡ act_answer row.act row.next at.now) }
{
    if is_check(row.act) {
        check(alloc, row.act, row.next, at)
    } else if is_edit(row.act) {
        edit(alloc, row.act, row.next, at)
    } else {
        ask(alloc, row.act, row.next, at)
    }
}
