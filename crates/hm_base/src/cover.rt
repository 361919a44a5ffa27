//! Whether the live regions of each table cover all keys.
ghost use Rattle.std.specs.Prelude.{◌↔◌, IsTrue, IfOk, None};
ghost use Rattle.std.specs.List.{AllByRecursion};
ghost use Rattle.hm_ranges.specs.Holes.{IsLeast};
ghost use Rattle.hm_ranges.specs.Live.{ranges_in};
ghost use Rattle.hm_base.specs.Whole.{HasNoHole};

use hm_catalog::Catalog;
use hm_data::CatKey;
use hm_names::TableName;
use hm_ranges::{least_left_out, live_ranges};
use std::alloc::{AllocError, Global};

// Whether the live regions of a table leave no key out.
fn is_covered(alloc: Global, catalog: &Catalog, table: &TableName) -> Result<bool, AllocError>
    ensures { IfOk result (λ covered. IsTrue covered ↔ IsLeast (ranges_in catalog.now.rows table.now) None) }
{
    let ranges = live_ranges(alloc, catalog, table)?;
    match least_left_out(&ranges) {
        Some(_) => Ok(false),
        None => Ok(true),
    }
}

// Whether the table of a row, where the row is a table's, has no hole.
fn has_no_hole(alloc: Global, catalog: &Catalog, key: &CatKey) -> Result<bool, AllocError>
    ensures { IfOk result (λ covered. IsTrue covered ↔ HasNoHole catalog.now.rows key.now) }
{
    match key {
        CatKey::Table(table) => is_covered(alloc, catalog, table),
        _ => Ok(true),
    }
}

// Whether no table has a hole.
pub(crate) fn have_no_holes(alloc: Global, catalog: &Catalog) -> Result<bool, AllocError>
    ensures { IfOk result (λ covered. IsTrue covered ↔ AllByRecursion (λ row. HasNoHole catalog.now.rows row.0) catalog.now.rows) }
{
    for (key, _row) in catalog.rows() {
        let covered = has_no_hole(alloc, catalog, key)?;
        if !covered {
            return Ok(false);
        }
    }
    Ok(true)
}
