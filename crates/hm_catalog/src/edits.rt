//! The edits of a request that no cause stands against.
ghost use Rattle.std.specs.Prelude.{◌≡◌, ℕ, ◌+◌, ◌^◌, ◌≤◌, ◌<◌, ◌++◌, [], ◌∷◌, length, IfOk, IsTrue, None, Some};
ghost use Rattle.hm_names.specs.Ranges.{inner};
ghost use Rattle.hm_data.specs.declared.catalog.CatKey.TheVariants as Key_is;
ghost use Rattle.hm_data.specs.declared.catalog.CatRow.TheVariants as Row_is;
ghost use Rattle.hm_data.specs.declared.catalog.TableState.TheVariants as State_is;
ghost use Rattle.hm_model.specs.Catalog.{row_at, set_to};
ghost use Rattle.hm_model.specs.Changes.{add_ranges, changed as changed_of, live_row, region_key, remove_regions, split_edits};
ghost use Rattle.hm_model.specs.Checks.{can_split};
ghost use Rattle.hm_model.specs.Pieces.{ranges_between};
ghost use Rattle.hm_model.specs.RowsSaid.{all_among, range_in};
ghost use Rattle.hm_catalog.specs.Deeds.{made_by};

use crate::catalog::Catalog;
use crate::checks::range_of;
use crate::name::Name;
use hm_data::{CatKey, CatRow, Edit, Status, TableState};
use hm_names::{Copied, KeyRange, List, RegionName, RowKey, TableName};
use std::alloc::{AllocError, Global};

// What becomes of a row.
#[derive(Clone, Copy)]
pub(crate) enum Change {
    State(TableState),
    Version(u64),
    Status(Status),
}

impl Change {
    fn made(self, row: CatRow) -> CatRow
        ensures { result ≡ made_by self row }
    {
        match row {
            CatRow::Ns => CatRow::Ns,
            CatRow::Table { state, version } => match self {
                Change::State(state) => CatRow::Table { state, version },
                Change::Version(version) => CatRow::Table { state, version },
                Change::Status(_) => CatRow::Table { state, version },
            },
            CatRow::Region {
                range,
                status,
                parents,
            } => {
                let status = match self {
                    Change::Status(status) => status,
                    _ => status,
                };
                CatRow::Region {
                    range,
                    status,
                    parents,
                }
            }
        }
    }
}

// An edit that sets a row, told with the row that is there.
pub(crate) fn setting(
    alloc: Global,
    catalog: &Catalog,
    key: CatKey,
    after: Option<CatRow>,
) -> Result<Edit, AllocError>
    ensures { IfOk result (λ edit. edit ≡ set_to (row_at catalog.now.rows) key after) }
{
    let before = match catalog.get(&key) {
        Some(row) => Some(row.copy(alloc)?),
        None => None,
    };
    Ok(Edit { key, before, after })
}

// An edit that changes a row where it is there.
pub(crate) fn changing(
    alloc: Global,
    catalog: &Catalog,
    key: CatKey,
    change: Change,
) -> Result<Edit, AllocError>
    ensures { IfOk result (λ edit. edit ≡ changed_of (row_at catalog.now.rows) key (made_by change)) }
{
    let after = match catalog.get(&key) {
        Some(row) => Some(change.made(row.copy(alloc)?)),
        None => None,
    };
    setting(alloc, catalog, key, after)
}

// One edit that changes the row of a table.
pub(crate) fn change_table(
    alloc: Global,
    catalog: &Catalog,
    table: &TableName,
    change: Change,
) -> Result<Vec<Edit>, AllocError>
    ensures { IfOk result (λ edits. edits.items ≡ changed_of (row_at catalog.now.rows) (Key_is.Table table.now) (made_by change) ∷ []) }
{
    let key = CatKey::Table(table.copy(alloc)?);
    one(alloc, changing(alloc, catalog, key, change)?)
}

// An edit that adds a live region.
pub(crate) fn adding(
    alloc: Global,
    catalog: &Catalog,
    table: &TableName,
    id: u64,
    range: KeyRange,
    parents: Vec<u64>,
) -> Result<Edit, AllocError>
    requires { 1 ≤ id }
    ensures { IfOk result (λ edit. edit ≡ set_to (row_at catalog.now.rows) (region_key table.now id) (Some (live_row range parents.items))) }
{
    let key = CatKey::Region(RegionName {
        table: table.copy(alloc)?,
        id,
    });
    let row = CatRow::Region {
        range,
        status: Status::Live,
        parents: List::of(parents),
    };
    setting(alloc, catalog, key, Some(row))
}

// One edit alone.
pub(crate) fn one(alloc: Global, edit: Edit) -> Result<Vec<Edit>, AllocError>
    ensures { IfOk result (λ edits. edits.items ≡ edit ∷ []) }
{
    let mut edits = Vec::new(alloc);
    edits.push(edit)?;
    Ok(edits)
}

// The open end of a range.
fn open_end(alloc: Global) -> Result<RowKey, AllocError>
    ensures { IfOk result (λ key. key ≡ []) }
{
    match RowKey::of(alloc, b"") {
        Ok(key) => Ok(key),
        Err(_) => Err(AllocError),
    }
}

// A table is added, enabled, with a live region for each gap of the split keys.
pub(crate) fn create_table(
    alloc: Global,
    catalog: &Catalog,
    table: &TableName,
    keys: &[RowKey],
    first: u64,
) -> Result<Vec<Edit>, AllocError>
    requires first { 1 ≤ first }
    requires ids { first + length keys.now < 2 ^ 64 }
    ensures { IfOk result (λ edits. edits.items ≡ set_to (row_at catalog.now.rows) (Key_is.Table table.now) (Some (Row_is.Table State_is.Enabled 1)) ∷ add_ranges (row_at catalog.now.rows) table.now first (ranges_between ([] ∷ keys.now ++ [] ∷ []))) }
{
    let row = CatRow::Table {
        state: TableState::Enabled,
        version: 1,
    };
    let key = CatKey::Table(table.copy(alloc)?);
    let mut edits = one(alloc, setting(alloc, catalog, key, Some(row))?)?;
    let mut start = open_end(alloc)?;
    let mut id = first;
    for end in keys {
        let range = KeyRange {
            start,
            end: end.copy(alloc)?,
        };
        edits.push(adding(alloc, catalog, table, id, range, Vec::new(alloc))?)?;
        start = end.copy(alloc)?;
        id += 1;
    }
    let range = KeyRange {
        start,
        end: open_end(alloc)?,
    };
    edits.push(adding(alloc, catalog, table, id, range, Vec::new(alloc))?)?;
    Ok(edits)
}

// A table is removed, with all its regions.
pub(crate) fn delete_table(
    alloc: Global,
    catalog: &Catalog,
    table: &TableName,
) -> Result<Vec<Edit>, AllocError>
    ensures { IfOk result (λ edits. edits.items ≡ set_to (row_at catalog.now.rows) (Key_is.Table table.now) None ∷ remove_regions (row_at catalog.now.rows) (all_among table.now catalog.now.rows)) }
{
    let key = CatKey::Table(table.copy(alloc)?);
    let mut edits = one(alloc, setting(alloc, catalog, key, None)?)?;
    for region in catalog.regions_of(table) {
        let key = CatKey::Region(region.copy(alloc)?);
        edits.push(setting(alloc, catalog, key, None)?)?;
    }
    Ok(edits)
}

// A region is split at a key that lies inside.
pub(crate) fn split_region(
    alloc: Global,
    catalog: &Catalog,
    region: &RegionName,
    key: &RowKey,
    first: u64,
) -> Result<Vec<Edit>, AllocError>
    requires first { 1 ≤ first }
    requires ids { first + 1 < 2 ^ 64 }
    requires can { can_split (row_at catalog.now.rows (Key_is.Table region.now.table)) (row_at catalog.now.rows (Key_is.Region region.now)) key.now ≡ None }
    ensures { IfOk result (λ edits. edits.items ≡ split_edits (row_at catalog.now.rows) region.now key.now first) }
{
    let Some(range) = range_of(catalog.get(&Name::Region(region))) else {
        unreachable!()
    };
    let (front, back) = range.copy(alloc)?.cut_at(alloc, key)?;
    let split = Change::Status(Status::Split);
    let parent = CatKey::Region(region.copy(alloc)?);
    let mut edits = one(alloc, changing(alloc, catalog, parent, split)?)?;
    let parents = Vec::from_array(alloc, [region.id])?;
    let table = &region.table;
    edits.push(adding(alloc, catalog, table, first, front, parents)?)?;
    let parents = Vec::from_array(alloc, [region.id])?;
    edits.push(adding(alloc, catalog, table, first + 1, back, parents)?)?;
    Ok(edits)
}
