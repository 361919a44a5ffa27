// The acts of splits, and those that merges have too.
ghost use Rattle.std.specs.Prelude.{◌≡◌, ◌≤◌, ◌<◌, ◌^◌, ◌+◌, ◌++◌, [], ◌∷◌, IfOk, OnOk, Some};
ghost use Rattle.std.specs.List.{AllByRecursion};
ghost use Rattle.hm_data.specs.declared.catalog.CatKey.TheVariants as key_is;
ghost use Rattle.hm_data.specs.declared.catalog.Status.TheVariants as status_is;
ghost use Rattle.hm_names.specs.Ranges.{lower_part, upper_part};
ghost use Rattle.hm_model.specs.Catalog.{row_at as row_of, set_to};
ghost use Rattle.hm_model.specs.Changes.{changed, region_key as key_with, live_row as live_of, split_range as splits, split_edits as splitting};
ghost use Rattle.hm_model.specs.Evaluation.{named_ids};
ghost use Rattle.hm_model.specs.RegionActs.{check_split as checks_split, close_parents as closes, update_split_meta as updates_split, finish as finishes};
ghost use Rattle.hm_model.specs.RowsSaid.{in_status as put_in};
ghost use Rattle.hm_model.specs.Views.{first_id_of as first_id};

use crate::outs::{checked, edits_rows, ends_with, goes_on, push_edit, spawns};
use crate::regions::add_region;
use hm_data::{Args, CatKey, CatRow, Edit, Goal, Request, Status, StepOut, Told};
use hm_names::{KeyRange, RegionName, RowKey};
use hm_views::checks::{can_split, range_in};
use hm_views::closing::closed_by;
use hm_views::lookup::{Rows, kept_row, region_key, region_row, table_row};
use hm_views::pieces::transits;
use hm_views::ranges::range_of_keys;
use hm_views::views::{cut_of, region_of};
use std::alloc::{AllocError, Global};

/// The region can be split at the key.
pub(crate) fn check_split(
    alloc: Global,
    next: u8,
    args: &Args,
    rows: &[(CatKey, CatRow)],
) -> StepOut
    ensures { result ≡ checks_split next args.now rows.now }
{
    let Some(region) = region_of(args) else {
        return goes_on(alloc, next);
    };
    let Some(cut) = cut_of(args) else {
        return goes_on(alloc, next);
    };
    let cause = can_split(
        table_row(rows, &region.table),
        region_row(rows, region),
        cut,
    );
    checked(alloc, next, cause)
}

/// Has the regions to split or to merge unassigned.
pub(crate) fn close_parents(alloc: Global, next: u8, args: &Args) -> Result<StepOut, AllocError>
    ensures { IfOk result (λ out. out ≡ closes next args.now) }
{
    let regions = closed_by(alloc, args)?;
    let children = transits(alloc, Goal::Unassign, &regions)?;
    Ok(spawns(alloc, next, children))
}

/// Ends a split or a merge.
pub(crate) fn finish(alloc: Global) -> StepOut
    ensures { result ≡ finishes }
{
    ends_with(alloc, Told::Nothing)
}

fn put_status(row: &mut CatRow, status: Status)
    ensures { row.new ≡ put_in status row.old }
{
    if let CatRow::Region {
        range: _,
        status: before,
        parents: _,
    } = row
    {
        *before = status;
    }
}

/// A region marked as split or merged.
pub(crate) fn mark(
    alloc: Global,
    rows: &Rows<'_>,
    region: &RegionName,
    status: Status,
) -> Result<Edit, AllocError>
    ensures { IfOk result
        (λ edit. edit ≡ changed (row_of rows.now) (key_is.Region region.now) (put_in status)) }
{
    let key = region_key(alloc, region)?;
    let mut edit = kept_row(alloc, rows, key)?;
    if let Some(row) = &mut edit.after {
        put_status(row, status);
    }
    Ok(edit)
}

fn one_id(alloc: Global, id: u64) -> Result<Vec<u64>, AllocError>
    ensures { IfOk result (λ v. v.items ≡ id ∷ []) }
{
    let mut ids = Vec::new(alloc);
    ids.push(id)?;
    Ok(ids)
}

// A daughter of a region is added.
fn add_daughter(
    alloc: Global,
    rows: &Rows<'_>,
    region: &RegionName,
    id: u64,
    range: KeyRange,
) -> Result<Edit, AllocError>
    requires { 1 ≤ id }
    ensures { IfOk result (λ edit. edit ≡ set_to (row_of rows.now) (key_with region.now.table id) (Some (live_of range (region.now.id ∷ [])))) }
{
    let parents = one_id(alloc, region.id)?;
    add_region(alloc, rows, &region.table, id, range, parents)
}

// A daughter of a region is added to edits.
fn push_daughter(
    alloc: Global,
    rows: &Rows<'_>,
    region: &RegionName,
    id: u64,
    range: KeyRange,
    edits: &mut Vec<Edit>,
) -> Result<(), AllocError>
    requires { 1 ≤ id }
    ensures { OnOk result
        (edits.new.items ≡ edits.old.items ++ set_to (row_of rows.now) (key_with region.now.table id) (Some (live_of range (region.now.id ∷ []))) ∷ []) }
{
    let edit = add_daughter(alloc, rows, region, id, range)?;
    push_edit(edits, edit)
}

// The daughters of a region of this range that is split at a key are added to edits.
fn push_daughters(
    alloc: Global,
    rows: &Rows<'_>,
    region: &RegionName,
    key: &RowKey,
    first: u64,
    range: &KeyRange,
    edits: &mut Vec<Edit>,
) -> Result<(), AllocError>
    requires drawn { 1 ≤ first }
    requires low { first < 2 ^ 32 }
    ensures { OnOk result
        (edits.new.items
        ≡ edits.old.items
        ++ set_to (row_of rows.now) (key_with region.now.table first) (Some (live_of (lower_part range.now key.now) (region.now.id ∷ [])))
        ∷ set_to (row_of rows.now) (key_with region.now.table (first + 1)) (Some (live_of (upper_part range.now key.now) (region.now.id ∷ [])))
        ∷ []) }
{
    let below = range_of_keys(alloc, &range.start, key)?;
    push_daughter(alloc, rows, region, first, below, edits)?;
    let from = range_of_keys(alloc, key, &range.end)?;
    push_daughter(alloc, rows, region, first + 1, from, edits)
}

// A region that is split is marked.
fn mark_split(alloc: Global, rows: &Rows<'_>, region: &RegionName) -> Result<Vec<Edit>, AllocError>
    ensures { IfOk result
        (λ v. v.items ≡ changed (row_of rows.now) (key_is.Region region.now) (put_in status_is.Split) ∷ []) }
{
    let mut edits = Vec::new(alloc);
    push_edit(&mut edits, mark(alloc, rows, region, Status::Split)?)?;
    Ok(edits)
}

// A region of this range is split at a key: it is marked, and two live ones are added.
fn split_range(
    alloc: Global,
    rows: &Rows<'_>,
    region: &RegionName,
    key: &RowKey,
    first: u64,
    range: &KeyRange,
) -> Result<Vec<Edit>, AllocError>
    requires drawn { 1 ≤ first }
    requires low { first < 2 ^ 32 }
    ensures { IfOk result (λ v. v.items ≡ splits (row_of rows.now) region.now key.now first (Some range.now)) }
{
    let mut edits = mark_split(alloc, rows, region)?;
    push_daughters(alloc, rows, region, key, first, range, &mut edits)?;
    Ok(edits)
}

// A region is split at a key, with the first id that was drawn.
fn split_edits(
    alloc: Global,
    rows: &Rows<'_>,
    region: &RegionName,
    key: &RowKey,
    first: u64,
) -> Result<Vec<Edit>, AllocError>
    requires drawn { 1 ≤ first }
    requires low { first < 2 ^ 32 }
    ensures { IfOk result (λ v. v.items ≡ splitting (row_of rows.now) region.now key.now first) }
{
    match range_in(rows.region(region)) {
        None => Ok(Vec::new(alloc)),
        Some(range) => split_range(alloc, rows, region, key, first, range),
    }
}

/// Marks the region as split, and adds its daughters.
pub(crate) fn update_split_meta(
    alloc: Global,
    next: u8,
    args: &Args,
    rows: &Rows<'_>,
) -> Result<StepOut, AllocError>
    requires ids { AllByRecursion (λ id. 1 ≤ id) (named_ids args.now) }
    requires first { first_id args.now < 2 ^ 32 }
    ensures { IfOk result (λ out. out ≡ updates_split next args.now rows.now) }
{
    match args {
        Args::Root {
            request: Request::SplitRegion { region, key },
            first,
        } => {
            let edits = split_edits(alloc, rows, region, key, *first)?;
            Ok(edits_rows(alloc, next, edits))
        }
        _ => Ok(goes_on(alloc, next)),
    }
}
