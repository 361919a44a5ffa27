// What stands against a merge, and the parts that it joins.
ghost use Rattle.std.specs.Prelude.{◌≡◌, ◌&&◌, ◌==◌, not, IfOk, length, is_none};
ghost use Rattle.std.specs.List.{list_any};
ghost use Rattle.std.specs.Str.{bytes_eq};
ghost use Rattle.hm_data.specs.declared.catalog.CatKey.TheVariants as key_is;
ghost use Rattle.hm_model.specs.Catalog.{row_at as row_of};
ghost use Rattle.hm_model.specs.Checks.{regions_live as all_live, rows_of, parts_of as parts_in, by_start as started, is_chain as chained, are_adjacent as adjacent};
ghost use Rattle.hm_model.specs.Kinds.{table_of_first};
ghost use Rattle.hm_model.specs.RegionActs.{merge_cause as cause_of_merge};
ghost use Rattle.hm_model.specs.RowsSaid.{status_in as status_in_row, is_live_status as live};

use crate::checks::{is_live, range_in, status_in, table_enabled};
use crate::lookup::{Rows, table_row};
use hm_data::{CatKey, CatRow, Cause, Status};
use hm_model::Merged;
use hm_names::{Copied, KeyRange, RegionName};
use std::alloc::{AllocError, Global};

// The status of a region among rows.
fn status_of(rows: &Rows<'_>, region: &RegionName) -> Option<Status>
    ensures { result ≡ status_in_row (row_of rows.now (key_is.Region region.now)) }
{
    status_in(rows.region(region))
}

// A region isn't among rows.
fn is_one_missing(rows: &Rows<'_>, regions: &[RegionName]) -> bool
    ensures { result
        ≡ list_any (λ row. is_none (status_in_row row)) (rows_of (row_of rows.now) regions.now) }
{
    for region in regions {
        if status_of(rows, region).is_none() {
            return true;
        }
    }
    false
}

// A region among rows isn't live.
fn is_one_dead(rows: &Rows<'_>, regions: &[RegionName]) -> bool
    ensures { result
        ≡ list_any (λ row. not (live (status_in_row row))) (rows_of (row_of rows.now) regions.now) }
{
    for region in regions {
        if !is_live(status_of(rows, region)) {
            return true;
        }
    }
    false
}

// Each of some regions is there, and each is live.
fn regions_live(rows: &Rows<'_>, regions: &[RegionName]) -> Option<Cause>
    ensures { result ≡ all_live (rows_of (row_of rows.now) regions.now) }
{
    if is_one_missing(rows, regions) {
        Some(Cause::RegionMissing)
    } else if is_one_dead(rows, regions) {
        Some(Cause::RegionNotLive)
    } else {
        None
    }
}

// A region's part of a merge, by its range.
fn part_of(alloc: Global, id: u64, range: &KeyRange) -> Result<Merged, AllocError>
    ensures { IfOk result (λ part. part ≡ record { id = id; range = range.now }) }
{
    let range = range.copy(alloc)?;
    Ok(Merged { id, range })
}

// The ranges of regions among rows, where they are known.
fn parts_of(
    alloc: Global,
    rows: &Rows<'_>,
    regions: &[RegionName],
) -> Result<Vec<Merged>, AllocError>
    ensures { IfOk result (λ v. v.items ≡ parts_in (row_of rows.now) regions.now) }
{
    let mut parts = Vec::new(alloc);
    for region in regions {
        if let Some(range) = range_in(rows.region(region)) {
            parts.push(part_of(alloc, region.id, range)?)?;
        }
    }
    Ok(parts)
}

/// The ranges of regions among rows, by their start keys.
pub fn parts_by_start(
    alloc: Global,
    rows: &Rows<'_>,
    regions: &[RegionName],
) -> Result<Vec<Merged>, AllocError>
    ensures { IfOk result (λ v. v.items ≡ started (parts_in (row_of rows.now) regions.now)) }
{
    let mut parts = parts_of(alloc, rows, regions)?;
    parts.sort_by(|part, other| part.range.start.cmp(&other.range.start))?;
    Ok(parts)
}

// The range's end isn't the open one and is the next one's start.
fn meets(range: &KeyRange, next: &KeyRange) -> bool
    ensures { result ≡ (not (length range.now.end == 0) && bytes_eq range.now.end next.now.start) }
{
    !range.end.as_bytes().is_empty() && range.end.as_bytes() == next.start.as_bytes()
}

// Each range meets the next, from a first one on.
fn is_chain(first: &KeyRange, parts: &[Merged]) -> bool
    ensures { result ≡ chained first.now parts.now }
{
    let mut before = first;
    for part in parts {
        if !meets(before, &part.range) {
            return false;
        }
        before = &part.range;
    }
    true
}

fn are_adjacent(parts: &[Merged]) -> Option<Cause>
    ensures { result ≡ adjacent parts.now }
{
    match parts {
        [first, rest @ ..] if !is_chain(&first.range, rest) => Some(Cause::NotAdjacent),
        _ => None,
    }
}

/// The first cause against a merge.
pub fn merge_cause(
    alloc: Global,
    rows: &[(CatKey, CatRow)],
    regions: &[RegionName],
) -> Result<Option<Cause>, AllocError>
    ensures { IfOk result (λ cause. cause ≡ cause_of_merge (table_of_first regions.now) rows.now regions.now) }
{
    let [first, ..] = regions else {
        return Ok(None);
    };
    if let Some(cause) = table_enabled(table_row(rows, &first.table)) {
        return Ok(Some(cause));
    }
    let rows = Rows::of(rows);
    if let Some(cause) = regions_live(&rows, regions) {
        return Ok(Some(cause));
    }
    let parts = parts_by_start(alloc, &rows, regions)?;
    Ok(are_adjacent(&parts))
}
