//! The ranges of a table's live regions, by the rows of a catalog.
ghost use Rattle.std.specs.Prelude.{◌≡◌, IfOk, OnOk, Some, map};
ghost use Rattle.std.specs.List.Sorted.{IsPermutation};
ghost use Rattle.std.specs.Option.{option_copied};
ghost use Rattle.hm_ranges.specs.Holes.{StartsRise};
ghost use Rattle.hm_ranges.specs.Live.{live_in, ranges_in};

use hm_catalog::{Catalog, Span};
use hm_data::{CatRow, Status};
use hm_names::{KeyRange, TableName};
use std::alloc::{AllocError, Global};

/// The range of a region that is live, by its row.
pub fn live_range(row: &CatRow) -> Option<&KeyRange>
    ensures { option_copied result ≡ live_in (Some row.now) }
{
    match row {
        CatRow::Region {
            range,
            status: Status::Live,
            parents: _,
        } => Some(range),
        _ => None,
    }
}

// The ranges of a table's live regions, in the order of their names.
fn by_name<'a>(
    alloc: Global,
    catalog: &'a Catalog,
    table: &'a TableName,
) -> Result<Vec<&'a KeyRange>, AllocError>
    ensures { IfOk result (λ ranges. map (λ range. range.now) ranges.items ≡ ranges_in catalog.now.rows table.now) }
{
    let mut ranges = Vec::new(alloc);
    for (_key, row) in catalog.rows_of(Span::Regions(table)) {
        if let Some(range) = live_range(row) {
            ranges.push(range)?;
        }
    }
    Ok(ranges)
}

// Sorts ranges by where they start.
fn sort_ranges(ranges: &mut Vec<&KeyRange>) -> Result<(), AllocError>
    ensures sorted { OnOk result (StartsRise (map (λ range. range.now) ranges.new.items)) }
    ensures same { IsPermutation ranges.old.items ranges.new.items }
{
    ranges.sort_by(|one, other| one.start.cmp(&other.start))
}

/// The ranges of a table's live regions, in the order in which they start: a walk over the rows of its regions, and a sort.
pub fn live_ranges<'a>(
    alloc: Global,
    catalog: &'a Catalog,
    table: &'a TableName,
) -> Result<Vec<&'a KeyRange>, AllocError>
    ensures rise { IfOk result (λ ranges. StartsRise (map (λ range. range.now) ranges.items)) }
    ensures same { IfOk result (λ ranges. IsPermutation (ranges_in catalog.now.rows table.now) (map (λ range. range.now) ranges.items)) }
{
    let mut ranges = by_name(alloc, catalog, table)?;
    sort_ranges(&mut ranges)?;
    Ok(ranges)
}
