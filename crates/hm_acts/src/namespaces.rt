// The acts on namespaces.
ghost use Rattle.std.specs.Prelude.{◌≡◌, IfOk};
ghost use Rattle.hm_model.specs.NamespaceActs.{check_free_namespace as check_free, add_namespace as add_ns, check_namespace_empty as check_empty, drop_namespace as drop_ns};

use crate::outs::{checked, edits_row, goes_on};
use hm_data::{Args, CatKey, CatRow, StepOut};
use hm_views::checks::{namespace_empty, namespace_free};
use hm_views::lookup::{Rows, has_table, namespace_key, namespace_row, set_row};
use hm_views::views::namespace_of;
use std::alloc::{AllocError, Global};

/// The namespace to create isn't there.
pub(crate) fn check_free_namespace(
    alloc: Global,
    next: u8,
    args: &Args,
    rows: &[(CatKey, CatRow)],
) -> StepOut
    ensures { result ≡ check_free next args.now rows.now }
{
    let Some(ns) = namespace_of(args) else {
        return goes_on(alloc, next);
    };
    let cause = namespace_free(namespace_row(rows, ns));
    checked(alloc, next, cause)
}

/// Adds the row of the namespace.
pub(crate) fn add_namespace(
    alloc: Global,
    next: u8,
    args: &Args,
    rows: &Rows<'_>,
) -> Result<StepOut, AllocError>
    ensures { IfOk result (λ out. out ≡ add_ns next args.now rows.now) }
{
    let Some(ns) = namespace_of(args) else {
        return Ok(goes_on(alloc, next));
    };
    let key = namespace_key(alloc, ns)?;
    let edit = set_row(alloc, rows, key, Some(CatRow::Ns))?;
    edits_row(alloc, next, edit)
}

/// The namespace to drop is there, and has no table.
pub(crate) fn check_namespace_empty(
    alloc: Global,
    next: u8,
    args: &Args,
    rows: &[(CatKey, CatRow)],
) -> StepOut
    ensures { result ≡ check_empty next args.now rows.now }
{
    let Some(ns) = namespace_of(args) else {
        return goes_on(alloc, next);
    };
    let cause = namespace_empty(namespace_row(rows, ns), has_table(ns, rows));
    checked(alloc, next, cause)
}

/// Removes the row of the namespace.
pub(crate) fn drop_namespace(
    alloc: Global,
    next: u8,
    args: &Args,
    rows: &Rows<'_>,
) -> Result<StepOut, AllocError>
    ensures { IfOk result (λ out. out ≡ drop_ns next args.now rows.now) }
{
    let Some(ns) = namespace_of(args) else {
        return Ok(goes_on(alloc, next));
    };
    let key = namespace_key(alloc, ns)?;
    let edit = set_row(alloc, rows, key, None)?;
    edits_row(alloc, next, edit)
}
