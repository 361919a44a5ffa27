// The acts on tables.
ghost use Rattle.std.specs.Prelude.{◌≡◌, IfOk};
ghost use Rattle.hm_model.specs.NamespaceActs.{check_table_free as check_no_table, add_table as add, set_state as put_in, check_table_disabled as check_disabled, drop_table as drop, check_table_enabled as check_enabled, set_version as put_version, lay_out as laid};

use crate::outs::{checked, edits_row, goes_on, spawns_one};
use hm_data::{Args, CatKey, CatRow, StepOut, TableState};
use hm_names::Pid;
use hm_views::checks::{table_disabled, table_enabled, table_free};
use hm_views::lookup;
use hm_views::lookup::{Rows, namespace_row, set_row, table_key, table_row};
use hm_views::views::{table_of, version_of};
use std::alloc::{AllocError, Global};

/// The namespace of the table to create is there, and the table isn't.
pub(crate) fn check_table_free(
    alloc: Global,
    next: u8,
    args: &Args,
    rows: &[(CatKey, CatRow)],
) -> StepOut
    ensures { result ≡ check_no_table next args.now rows.now }
{
    let Some(table) = table_of(args) else {
        return goes_on(alloc, next);
    };
    let cause = table_free(namespace_row(rows, &table.ns), table_row(rows, table));
    checked(alloc, next, cause)
}

/// Adds the row of the table, disabled, of version 1.
pub(crate) fn add_table(
    alloc: Global,
    next: u8,
    args: &Args,
    rows: &Rows<'_>,
) -> Result<StepOut, AllocError>
    ensures { IfOk result (λ out. out ≡ add next args.now rows.now) }
{
    let Some(table) = table_of(args) else {
        return Ok(goes_on(alloc, next));
    };
    let key = table_key(alloc, table)?;
    let row = CatRow::Table {
        state: TableState::Disabled,
        version: 1,
    };
    let edit = set_row(alloc, rows, key, Some(row))?;
    edits_row(alloc, next, edit)
}

/// Has the storage lay out the files of the root.
pub(crate) fn lay_out(alloc: Global, next: u8, root: Pid) -> Result<StepOut, AllocError>
    ensures { IfOk result (λ out. out ≡ laid next root) }
{
    spawns_one(alloc, next, Args::LayoutCall { root })
}

/// Sets the table to a state, with its version.
pub(crate) fn set_state(
    alloc: Global,
    state: TableState,
    next: u8,
    args: &Args,
    rows: &Rows<'_>,
) -> Result<StepOut, AllocError>
    ensures { IfOk result (λ out. out ≡ put_in state next args.now rows.now) }
{
    let Some(table) = table_of(args) else {
        return Ok(goes_on(alloc, next));
    };
    let edit = lookup::set_state(alloc, rows, table, state)?;
    edits_row(alloc, next, edit)
}

/// The table is there and disabled.
pub(crate) fn check_table_disabled(
    alloc: Global,
    next: u8,
    args: &Args,
    rows: &[(CatKey, CatRow)],
) -> StepOut
    ensures { result ≡ check_disabled next args.now rows.now }
{
    let Some(table) = table_of(args) else {
        return goes_on(alloc, next);
    };
    let cause = table_disabled(table_row(rows, table));
    checked(alloc, next, cause)
}

/// Removes the row of the table.
pub(crate) fn drop_table(
    alloc: Global,
    next: u8,
    args: &Args,
    rows: &Rows<'_>,
) -> Result<StepOut, AllocError>
    ensures { IfOk result (λ out. out ≡ drop next args.now rows.now) }
{
    let Some(table) = table_of(args) else {
        return Ok(goes_on(alloc, next));
    };
    let key = table_key(alloc, table)?;
    let edit = set_row(alloc, rows, key, None)?;
    edits_row(alloc, next, edit)
}

/// The table is there and enabled.
pub(crate) fn check_table_enabled(
    alloc: Global,
    next: u8,
    args: &Args,
    rows: &[(CatKey, CatRow)],
) -> StepOut
    ensures { result ≡ check_enabled next args.now rows.now }
{
    let Some(table) = table_of(args) else {
        return goes_on(alloc, next);
    };
    let cause = table_enabled(table_row(rows, table));
    checked(alloc, next, cause)
}

/// Gives the table its new version, in its state.
pub(crate) fn set_version(
    alloc: Global,
    next: u8,
    args: &Args,
    rows: &Rows<'_>,
) -> Result<StepOut, AllocError>
    ensures { IfOk result (λ out. out ≡ put_version next args.now rows.now) }
{
    let Some(table) = table_of(args) else {
        return Ok(goes_on(alloc, next));
    };
    let Some(version) = version_of(args) else {
        return Ok(goes_on(alloc, next));
    };
    let edit = lookup::set_version(alloc, rows, table, version)?;
    edits_row(alloc, next, edit)
}
