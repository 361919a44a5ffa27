// The regions of a table among rows.
ghost use Rattle.std.specs.Prelude.{◌≡◌, List as PlainList, IfOk, option_copied};
ghost use Rattle.std.specs.List.{cons_option};
ghost use Rattle.hm_names.specs.Region.{Region};
ghost use Rattle.hm_model.specs.RowsSaid.{regions_among as among, keep_region};
ghost use Rattle.hm_views.specs.Runs.{row_counts};

use crate::checks::{is_live, status_in};
use crate::lookup::same_table;
use hm_data::{CatKey, CatRow};
use hm_names::{Copied, RegionName, TableName};
use std::alloc::{AllocError, Global};

// The row counts among those of live regions, or among all.
fn counts(only_live: bool, row: &CatRow) -> bool
    ensures { result ≡ row_counts only_live row.now }
{
    !only_live || is_live(status_in(Some(row)))
}

// The region of a row of the table that counts.
fn region_in<'a>(
    table: &TableName,
    only_live: bool,
    key: &'a CatKey,
    row: &CatRow,
) -> Option<&'a RegionName>
    ensures { (more : PlainList Region)
        → keep_region table.now (row_counts only_live) key.now row.now more ≡ cons_option (option_copied result) more }
{
    match key {
        CatKey::Region(region) if same_table(table, &region.table) && counts(only_live, row) => {
            Some(region)
        }
        _ => None,
    }
}

/// The regions of a table among rows: the live ones, or all.
pub fn regions_among(
    alloc: Global,
    table: &TableName,
    only_live: bool,
    rows: &[(CatKey, CatRow)],
) -> Result<Vec<RegionName>, AllocError>
    ensures { IfOk result (λ v. v.items ≡ among table.now (row_counts only_live) rows.now) }
{
    let mut regions = Vec::new(alloc);
    for (key, row) in rows {
        if let Some(region) = region_in(table, only_live, key, row) {
            regions.push(region.copy(alloc)?)?;
        }
    }
    Ok(regions)
}
