// The acts of merges.
ghost use Rattle.std.specs.Prelude.{◌≡◌, ◌≤◌, ◌++◌, IfOk, OnOk, map};
ghost use Rattle.std.specs.List.{AllByRecursion};
ghost use Rattle.hm_model.specs.Catalog.{row_at as row_of};
ghost use Rattle.hm_model.specs.Changes.{mark_merged as marks, merged_of, add_merged as adds_merged, merge_edits as merging};
ghost use Rattle.hm_model.specs.Checks.{hull as hull_of};
ghost use Rattle.hm_model.specs.Evaluation.{named_ids};
ghost use Rattle.hm_model.specs.RegionActs.{check_merge as checks_merge, update_merge_meta as updates_merge};

use crate::outs::{checked, edits_rows, push_edit};
use crate::regions::add_region;
use crate::splits::mark;
use hm_data::{Args, CatKey, CatRow, Edit, Status, StepOut};
use hm_model::Merged;
use hm_names::{KeyRange, RegionName, TableName};
use hm_views::closing::{closed_by, closed_by_request};
use hm_views::lookup::Rows;
use hm_views::merges::{merge_cause, parts_by_start};
use hm_views::order::in_name_order;
use hm_views::ranges::range_of_keys;
use std::alloc::{AllocError, Global};

/// The regions can be merged.
pub(crate) fn check_merge(
    alloc: Global,
    next: u8,
    args: &Args,
    rows: &[(CatKey, CatRow)],
) -> Result<StepOut, AllocError>
    ensures { IfOk result (λ out. out ≡ checks_merge next args.now rows.now) }
{
    let regions = closed_by(alloc, args)?;
    let cause = merge_cause(alloc, rows, &regions)?;
    Ok(checked(alloc, next, cause))
}

// From the start of a range to the end of the last.
fn hull(alloc: Global, first: &KeyRange, parts: &[Merged]) -> Result<KeyRange, AllocError>
    ensures { IfOk result (λ range. range ≡ hull_of first.now parts.now) }
{
    let mut end = &first.end;
    for part in parts {
        end = &part.range.end;
    }
    range_of_keys(alloc, &first.start, end)
}

fn ids_of(alloc: Global, parts: &[Merged]) -> Result<Vec<u64>, AllocError>
    ensures { IfOk result (λ v. v.items ≡ map (λ p. p.id) parts.now) }
{
    let mut ids = Vec::new(alloc);
    for part in parts {
        ids.push(part.id)?;
    }
    Ok(ids)
}

// Adds the region that these parts become.
fn push_parts(
    alloc: Global,
    rows: &Rows<'_>,
    table: &TableName,
    first: u64,
    parts: &[Merged],
    edits: &mut Vec<Edit>,
) -> Result<(), AllocError>
    requires { 1 ≤ first }
    ensures { OnOk result (edits.new.items ≡ edits.old.items ++ merged_of (row_of rows.now) table.now first parts.now) }
{
    let [part, rest @ ..] = parts else {
        return Ok(());
    };
    let range = hull(alloc, &part.range, rest)?;
    let ids = ids_of(alloc, parts)?;
    push_edit(edits, add_region(alloc, rows, table, first, range, ids)?)
}

// Adds the region that others become.
fn push_merged(
    alloc: Global,
    rows: &Rows<'_>,
    first: u64,
    regions: &[RegionName],
    edits: &mut Vec<Edit>,
) -> Result<(), AllocError>
    requires { 1 ≤ first }
    ensures { OnOk result (edits.new.items ≡ edits.old.items ++ adds_merged (row_of rows.now) first regions.now regions.now) }
{
    let [region, ..] = regions else {
        return Ok(());
    };
    let parts = parts_by_start(alloc, rows, regions)?;
    push_parts(alloc, rows, &region.table, first, &parts, edits)
}

// Regions marked as merged.
fn mark_merged(
    alloc: Global,
    rows: &Rows<'_>,
    regions: &[RegionName],
) -> Result<Vec<Edit>, AllocError>
    ensures { IfOk result (λ v. v.items ≡ marks (row_of rows.now) regions.now) }
{
    let mut edits = Vec::new(alloc);
    for region in regions {
        push_edit(&mut edits, mark(alloc, rows, region, Status::Merged)?)?;
    }
    Ok(edits)
}

// Regions are merged: each is marked, in name order, and one is added.
fn merge_edits(
    alloc: Global,
    rows: &Rows<'_>,
    regions: &[RegionName],
    first: u64,
) -> Result<Vec<Edit>, AllocError>
    requires { 1 ≤ first }
    ensures { IfOk result (λ v. v.items ≡ merging (row_of rows.now) regions.now first) }
{
    let ordered = in_name_order(alloc, regions)?;
    let mut edits = mark_merged(alloc, rows, &ordered)?;
    push_merged(alloc, rows, first, regions, &mut edits)?;
    Ok(edits)
}

/// Marks the regions as merged, and adds the one that they become.
pub(crate) fn update_merge_meta(
    alloc: Global,
    next: u8,
    args: &Args,
    rows: &Rows<'_>,
) -> Result<StepOut, AllocError>
    requires { AllByRecursion (λ id. 1 ≤ id) (named_ids args.now) }
    ensures { IfOk result (λ out. out ≡ updates_merge next args.now rows.now) }
{
    match args {
        Args::Root { request, first } => {
            let regions = closed_by_request(alloc, request)?;
            let edits = merge_edits(alloc, rows, &regions, *first)?;
            Ok(edits_rows(alloc, next, edits))
        }
        _ => Ok(edits_rows(alloc, next, Vec::new(alloc))),
    }
}
