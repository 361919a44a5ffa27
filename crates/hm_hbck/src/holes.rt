//! The keys that the live regions of tables leave out.
ghost use Rattle.std.specs.Prelude.{OnOk};
ghost use Rattle.hm_hbck.specs.Found.{Adds};
ghost use Rattle.hm_hbck.specs.Holes.{IsHoleAmong, IsHoleAt, IsHoleOf};

use crate::finding::Finding;
use hm_catalog::Catalog;
use hm_data::{CatKey, CatRow};
use hm_names::{Copied, RowKey, TableName};
use hm_ranges::{least_left_out, live_ranges};
use std::alloc::{AllocError, Global};

// Adds the hole of a table.
fn add_hole(
    alloc: Global,
    catalog: &Catalog,
    table: &TableName,
    found: &mut Vec<Finding>,
) -> Result<(), AllocError>
    ensures { OnOk result (Adds (IsHoleOf catalog.now.rows table.now) found.old.items found.new.items) }
{
    let ranges = live_ranges(alloc, catalog, table)?;
    let Some(key) = least_left_out(&ranges) else {
        return Ok(());
    };
    let table = table.copy(alloc)?;
    // A key that is the end of a range is short enough.
    let Ok(key) = RowKey::of(alloc, key) else {
        return Err(AllocError);
    };
    found.push(Finding::Hole { table, key })?;
    Ok(())
}

// Adds the hole of a row's table, where the row is a table's.
fn add_row(
    alloc: Global,
    catalog: &Catalog,
    key: &CatKey,
    row: &CatRow,
    found: &mut Vec<Finding>,
) -> Result<(), AllocError>
    ensures { OnOk result (Adds (IsHoleAt catalog.now.rows key.now row.now) found.old.items found.new.items) }
{
    match (key, row) {
        (CatKey::Table(table), CatRow::Table { .. }) => add_hole(alloc, catalog, table, found),
        _ => Ok(()),
    }
}

// Adds the holes of all tables.
pub(crate) fn add_holes(
    alloc: Global,
    catalog: &Catalog,
    found: &mut Vec<Finding>,
) -> Result<(), AllocError>
    ensures { OnOk result (Adds (IsHoleAmong catalog.now.rows catalog.now.rows) found.old.items found.new.items) }
{
    for (key, row) in catalog.rows() {
        add_row(alloc, catalog, key, row, found)?;
    }
    Ok(())
}
