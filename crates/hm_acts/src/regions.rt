// The acts on the regions of tables.
ghost use Rattle.std.specs.Prelude.{◌≡◌, ◌≤◌, ◌<◌, ◌^◌, [], IfOk, Some, length};
ghost use Rattle.std.specs.List.{AllByRecursion};
ghost use Rattle.hm_model.specs.Catalog.{row_at as row_of, set_to};
ghost use Rattle.hm_model.specs.Changes.{live_row as live_of, region_key, add_ranges as adds_ranges, remove_regions as removes};
ghost use Rattle.hm_model.specs.Evaluation.{named_ids};
ghost use Rattle.hm_model.specs.Outs.{edits_rows as editing, spawns as spawning};
ghost use Rattle.hm_model.specs.Pieces.{adding as adding_of, ranges_between as between, transits as transits_of};
ghost use Rattle.hm_model.specs.RegionActs.{regions_for, add_regions as adds, open_regions as opens, close_regions as closes, drop_regions as drops, open_new as opens_new, add_region_rows as adds_rows, drop_region_rows as drops_rows};
ghost use Rattle.hm_model.specs.Views.{bounds_of as bounds_in, first_id_of as first_id, regions_in};

use crate::outs::{edits_rows, goes_on, push_edit, spawns};
use hm_data::{Args, CatKey, CatRow, Child, Edit, Goal, Status, StepOut};
use hm_names::{Copied, KeyRange, List, RegionName, RowKey, TableName};
use hm_views::bounds::{bounds_of, count_of_bounds};
use hm_views::lookup::{Rows, set_row};
use hm_views::order::ids_of as ids_in;
use hm_views::pieces::{adding, dropping, transits, transits_from};
use hm_views::ranges::range_of_keys;
use hm_views::regions::regions_among;
use hm_views::views::{first_id_of, ids_of, table_of};
use std::alloc::{AllocError, Global};

// Has the regions between bounds added.
fn add_between(
    alloc: Global,
    next: u8,
    table: &TableName,
    first: u64,
    bounds: Vec<RowKey>,
) -> Result<StepOut, AllocError>
    requires { first < 2 ^ 32 }
    ensures { IfOk result
        (λ out. out ≡ spawning next (adding_of (length bounds.items) table.now first bounds.items)) }
{
    let children = adding(alloc, table, first, &bounds);
    drop(bounds);
    Ok(spawns(alloc, next, children?))
}

/// Has the regions of the new table added.
pub(crate) fn add_regions(alloc: Global, next: u8, args: &Args) -> Result<StepOut, AllocError>
    requires { first_id args.now < 2 ^ 32 }
    ensures { IfOk result (λ out. out ≡ adds next args.now) }
{
    let Some(table) = table_of(args) else {
        return Ok(goes_on(alloc, next));
    };
    match bounds_of(alloc, args)? {
        None => Ok(goes_on(alloc, next)),
        Some(bounds) => add_between(alloc, next, table, first_id_of(args), bounds),
    }
}

// Transits of the regions that were drawn for a new table, else of the live ones of the table.
fn transits_for(
    alloc: Global,
    goal: Goal,
    table: &TableName,
    args: &Args,
    rows: &[(CatKey, CatRow)],
) -> Result<Vec<Child>, AllocError>
    requires { first_id args.now < 2 ^ 32 }
    ensures { IfOk result (λ v. v.items ≡ transits_of goal (regions_for table.now (first_id args.now) (bounds_in args.now) rows.now)) }
{
    match count_of_bounds(args) {
        Some(count) => {
            transits_from(
                alloc,
                goal,
                table,
                first_id_of(args),
                count.saturating_sub(1),
            )
        }
        None => transits(alloc, goal, &regions_among(alloc, table, true, rows)?),
    }
}

/// Has the regions of the table assigned.
pub(crate) fn open_regions(
    alloc: Global,
    next: u8,
    args: &Args,
    rows: &[(CatKey, CatRow)],
) -> Result<StepOut, AllocError>
    requires { first_id args.now < 2 ^ 32 }
    ensures { IfOk result (λ out. out ≡ opens next args.now rows.now) }
{
    let Some(table) = table_of(args) else {
        return Ok(goes_on(alloc, next));
    };
    let children = transits_for(alloc, Goal::Assign, table, args, rows)?;
    Ok(spawns(alloc, next, children))
}

/// Has the regions of the table unassigned.
pub(crate) fn close_regions(
    alloc: Global,
    next: u8,
    args: &Args,
    rows: &[(CatKey, CatRow)],
) -> Result<StepOut, AllocError>
    requires { first_id args.now < 2 ^ 32 }
    ensures { IfOk result (λ out. out ≡ closes next args.now rows.now) }
{
    let Some(table) = table_of(args) else {
        return Ok(goes_on(alloc, next));
    };
    let children = transits_for(alloc, Goal::Unassign, table, args, rows)?;
    Ok(spawns(alloc, next, children))
}

/// Has all regions of the table removed.
pub(crate) fn drop_regions(
    alloc: Global,
    next: u8,
    args: &Args,
    rows: &[(CatKey, CatRow)],
) -> Result<StepOut, AllocError>
    ensures { IfOk result (λ out. out ≡ drops next args.now rows.now) }
{
    let Some(table) = table_of(args) else {
        return Ok(goes_on(alloc, next));
    };
    let regions = regions_among(alloc, table, false, rows)?;
    let ids = ids_in(alloc, &regions)?;
    let children = dropping(alloc, table, &ids)?;
    Ok(spawns(alloc, next, children))
}

/// Has new regions assigned, so many from the first id on.
pub(crate) fn open_new(
    alloc: Global,
    count: usize,
    next: u8,
    args: &Args,
) -> Result<StepOut, AllocError>
    requires few { count < 2 ^ 32 }
    requires first { first_id args.now < 2 ^ 32 }
    ensures { IfOk result (λ out. out ≡ opens_new count next args.now) }
{
    let Some(table) = table_of(args) else {
        return Ok(goes_on(alloc, next));
    };
    let children = transits_from(alloc, Goal::Assign, table, first_id_of(args), count)?;
    Ok(spawns(alloc, next, children))
}

// A live region as a row.
fn live_row(range: KeyRange, parents: Vec<u64>) -> CatRow
    ensures { result ≡ live_of range parents.items }
{
    CatRow::Region {
        range,
        status: Status::Live,
        parents: List::of(parents),
    }
}

// The key of the region of a table with an id.
fn key_of_region(alloc: Global, table: &TableName, id: u64) -> Result<CatKey, AllocError>
    requires { 1 ≤ id }
    ensures { IfOk result (λ key. key ≡ region_key table.now id) }
{
    let table = table.copy(alloc)?;
    Ok(CatKey::Region(RegionName { table, id }))
}

// The ranges from a bound to the next, from the first bound on.
fn ranges_between(alloc: Global, bounds: &[RowKey]) -> Result<Vec<KeyRange>, AllocError>
    ensures { IfOk result (λ v. v.items ≡ between bounds.now) }
{
    let mut ranges = Vec::new(alloc);
    if let [first, rest @ ..] = bounds {
        let mut before = first;
        for bound in rest {
            ranges.push(range_of_keys(alloc, before, bound)?)?;
            before = bound;
        }
    }
    Ok(ranges)
}

/// A live region with these parents is added to a table, with an id.
pub(crate) fn add_region(
    alloc: Global,
    rows: &Rows<'_>,
    table: &TableName,
    id: u64,
    range: KeyRange,
    parents: Vec<u64>,
) -> Result<Edit, AllocError>
    requires { 1 ≤ id }
    ensures { IfOk result
        (λ edit. edit ≡ set_to (row_of rows.now) (region_key table.now id) (Some (live_of range parents.items))) }
{
    let key = key_of_region(alloc, table, id)?;
    set_row(alloc, rows, key, Some(live_row(range, parents)))
}

// A live region of this range is added, with an id, without parents.
fn add_range(
    alloc: Global,
    rows: &Rows<'_>,
    table: &TableName,
    id: u64,
    range: &KeyRange,
) -> Result<Edit, AllocError>
    requires { 1 ≤ id }
    ensures { IfOk result (λ edit. edit ≡ set_to (row_of rows.now) (region_key table.now id) (Some (live_of range.now []))) }
{
    let range = range.copy(alloc)?;
    add_region(alloc, rows, table, id, range, Vec::new(alloc))
}

// Live regions of these ranges are added, with consecutive ids from the first.
fn add_ranges(
    alloc: Global,
    rows: &Rows<'_>,
    table: &TableName,
    first: u64,
    ranges: &[KeyRange],
) -> Result<Vec<Edit>, AllocError>
    requires drawn { 1 ≤ first }
    requires low { first < 2 ^ 32 }
    ensures { IfOk result (λ v. v.items ≡ adds_ranges (row_of rows.now) table.now first ranges.now) }
{
    let mut edits = Vec::new(alloc);
    let mut id = first;
    for range in ranges {
        push_edit(&mut edits, add_range(alloc, rows, table, id, range)?)?;
        id += 1;
    }
    Ok(edits)
}

// Adds regions of these ranges as live, without parents.
fn add_rows(
    alloc: Global,
    next: u8,
    rows: &Rows<'_>,
    table: &TableName,
    first: u64,
    ranges: Vec<KeyRange>,
) -> Result<StepOut, AllocError>
    requires drawn { 1 ≤ first }
    requires low { first < 2 ^ 32 }
    ensures { IfOk result
        (λ out. out ≡ editing next (adds_ranges (row_of rows.now) table.now first ranges.items)) }
{
    let edits = add_ranges(alloc, rows, table, first, &ranges);
    drop(ranges);
    Ok(edits_rows(alloc, next, edits?))
}

// Adds the regions between bounds as live, without parents.
fn add_rows_between(
    alloc: Global,
    next: u8,
    rows: &Rows<'_>,
    table: &TableName,
    first: u64,
    bounds: Vec<RowKey>,
) -> Result<StepOut, AllocError>
    requires drawn { 1 ≤ first }
    requires low { first < 2 ^ 32 }
    ensures { IfOk result
        (λ out. out ≡ editing next (adds_ranges (row_of rows.now) table.now first (between bounds.items))) }
{
    let ranges = ranges_between(alloc, &bounds);
    drop(bounds);
    add_rows(alloc, next, rows, table, first, ranges?)
}

/// Adds regions as live, without parents.
pub(crate) fn add_region_rows(
    alloc: Global,
    next: u8,
    args: &Args,
    rows: &Rows<'_>,
) -> Result<StepOut, AllocError>
    requires ids { AllByRecursion (λ id. 1 ≤ id) (named_ids args.now) }
    requires first { first_id args.now < 2 ^ 32 }
    ensures { IfOk result (λ out. out ≡ adds_rows next args.now rows.now) }
{
    let Some(table) = table_of(args) else {
        return Ok(goes_on(alloc, next));
    };
    match bounds_of(alloc, args)? {
        None => Ok(goes_on(alloc, next)),
        Some(bounds) => add_rows_between(alloc, next, rows, table, first_id_of(args), bounds),
    }
}

// The regions of a table with these ids are removed.
fn remove_regions(
    alloc: Global,
    rows: &Rows<'_>,
    table: &TableName,
    ids: &[u64],
) -> Result<Vec<Edit>, AllocError>
    requires { AllByRecursion (λ id. 1 ≤ id) ids.now }
    ensures { IfOk result (λ v. v.items ≡ removes (row_of rows.now) (regions_in table.now ids.now)) }
{
    let mut edits = Vec::new(alloc);
    for id in ids {
        let key = key_of_region(alloc, table, *id)?;
        push_edit(&mut edits, set_row(alloc, rows, key, None)?)?;
    }
    Ok(edits)
}

/// Removes regions.
pub(crate) fn drop_region_rows(
    alloc: Global,
    next: u8,
    args: &Args,
    rows: &Rows<'_>,
) -> Result<StepOut, AllocError>
    requires { AllByRecursion (λ id. 1 ≤ id) (named_ids args.now) }
    ensures { IfOk result (λ out. out ≡ drops_rows next args.now rows.now) }
{
    let Some(table) = table_of(args) else {
        return Ok(goes_on(alloc, next));
    };
    let edits = remove_regions(alloc, rows, table, ids_of(args))?;
    Ok(edits_rows(alloc, next, edits))
}
