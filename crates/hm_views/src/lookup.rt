// The rows that a step reads, and the edits that it makes of them.
ghost use Rattle.std.specs.Prelude.{◌≡◌, true, IfOk, option_copied};
ghost use Rattle.std.specs.List.Sorted.{IsBinarySearchResult, IsSearchInRange};
ghost use Rattle.std.specs.Ordering.{is_lt};
ghost use Rattle.hm_data.specs.Keys.{key_cmp};
ghost use Rattle.hm_data.specs.declared.catalog.CatKey.TheVariants as key_is;
ghost use Rattle.hm_model.specs.Catalog.{row_at as row_of, set_to};
ghost use Rattle.hm_model.specs.Changes.{changed};
ghost use Rattle.hm_model.specs.Keys.{same_key as same, same_table as same_tables, same_region as same_regions};
ghost use Rattle.hm_model.specs.NamespaceActs.{has_table as tabled};
ghost use Rattle.hm_model.specs.RowsSaid.{is_table_in as within, in_state as put_in, in_version as versioned};
ghost use Rattle.hm_views.specs.Order.{keys_rise, keys_rise_from};

use hm_data::laws::keys_order_by_name;
use hm_data::{CatKey, CatRow, Edit, TableState};
use hm_names::{Copied, Ns, RegionName, TableName};
use std::alloc::{AllocError, Global};
use std::cmp::Ordering;
use std::marker::Model;

/// Whether two names are of one table.
pub fn same_table(a: &TableName, b: &TableName) -> bool
    ensures { result ≡ same_tables a.now b.now }
{
    a.ns.as_bytes() == b.ns.as_bytes() && a.qualifier.as_bytes() == b.qualifier.as_bytes()
}

fn same_region(a: &RegionName, b: &RegionName) -> bool
    ensures { result ≡ same_regions a.now b.now }
{
    same_table(&a.table, &b.table) && a.id == b.id
}

fn is_namespace(ns: &Ns, key: &CatKey) -> bool
    ensures { result ≡ same (key_is.Ns ns.now) key.now }
{
    match key {
        CatKey::Ns(other) => ns.as_bytes() == other.as_bytes(),
        _ => false,
    }
}

fn is_table(table: &TableName, key: &CatKey) -> bool
    ensures { result ≡ same (key_is.Table table.now) key.now }
{
    match key {
        CatKey::Table(other) => same_table(table, other),
        _ => false,
    }
}

fn is_region(region: &RegionName, key: &CatKey) -> bool
    ensures { result ≡ same (key_is.Region region.now) key.now }
{
    match key {
        CatKey::Region(other) => same_region(region, other),
        _ => false,
    }
}

/// The row of a namespace among rows.
pub fn namespace_row<'a>(rows: &'a [(CatKey, CatRow)], ns: &Ns) -> Option<&'a CatRow>
    ensures { option_copied result ≡ row_of rows.now (key_is.Ns ns.now) }
{
    for (key, row) in rows {
        if is_namespace(ns, key) {
            return Some(row);
        }
    }
    None
}

/// The row of a table among rows.
pub fn table_row<'a>(rows: &'a [(CatKey, CatRow)], table: &TableName) -> Option<&'a CatRow>
    ensures { option_copied result ≡ row_of rows.now (key_is.Table table.now) }
{
    for (key, row) in rows {
        if is_table(table, key) {
            return Some(row);
        }
    }
    None
}

/// The row of a region among rows.
pub fn region_row<'a>(rows: &'a [(CatKey, CatRow)], region: &RegionName) -> Option<&'a CatRow>
    ensures { option_copied result ≡ row_of rows.now (key_is.Region region.now) }
{
    for (key, row) in rows {
        if is_region(region, key) {
            return Some(row);
        }
    }
    None
}

// The key is below the next.
fn is_below(key: &CatKey, next: &CatKey) -> bool
    ensures { result ≡ is_lt (key_cmp key.now next.now) }
{
    keys_order_by_name();
    matches!(key.cmp(next), Ordering::Less)
}

// Each key is below the next, from one on.
fn rise_from(first: &CatKey, rows: &[(CatKey, CatRow)]) -> bool
    ensures { result ≡ keys_rise_from first.now rows.now }
{
    let mut before = first;
    for (key, _) in rows {
        if !is_below(before, key) {
            return false;
        }
        before = key;
    }
    true
}

fn are_in_order(rows: &[(CatKey, CatRow)]) -> bool
    ensures { result ≡ keys_rise rows.now }
{
    match rows {
        [(first, _), rest @ ..] => rise_from(first, rest),
        [] => true,
    }
}

// How a key compares with that of a region.
fn compare(key: &CatKey, region: &RegionName) -> Ordering
    ensures { result ≡ key_cmp key.now (key_is.Region region.now) }
{
    match key {
        CatKey::Region(other) => other.cmp(region),
        _ => Ordering::Less,
    }
}

// The row of a region among rows in the order of their keys.
fn seek<'a>(rows: &'a [(CatKey, CatRow)], region: &RegionName) -> Option<&'a CatRow>
    requires { keys_rise rows.now ≡ true }
    ensures { option_copied result ≡ row_of rows.now (key_is.Region region.now) }
{
    match rows.binary_search_by(|row| compare(&row.0, region)) {
        Ok(place) => Some(&rows[place].1),
        Err(_) => None,
    }
}

/// The rows that a step reads, of which many are looked up. Contracts see their list.
#[derive(Drop)]
pub struct Rows<'a> {
    rows: &'a [(CatKey, CatRow)],
    // Whether each key is below the next.
    in_order: bool,
}

impl<'a> Model for Rows<'a> {
    ghost use Rattle.std.specs.Prelude.{◌≡◌};
    ghost use Rattle.hm_model.specs.RowsSaid.{Rows as RowsOf};
    ghost use Rattle.hm_views.specs.Order.{keys_rise};

    ghost Value = { RowsOf };

    ghost view = { λ s. s.rows.now };

    ghost invariant = { λ s. s.in_order ≡ keys_rise s.rows.now };
}

impl<'a> Rows<'a> {
    pub fn of(rows: &'a [(CatKey, CatRow)]) -> Rows<'a>
        ensures { result ≡ rows.now }
    {
        Rows {
            rows,
            in_order: are_in_order(rows),
        }
    }

    /// The row of a region.
    pub fn region(&self, region: &RegionName) -> Option<&'a CatRow>
        ensures { option_copied result ≡ row_of self.now (key_is.Region region.now) }
    {
        if self.in_order {
            seek(self.rows, region)
        } else {
            region_row(self.rows, region)
        }
    }

    // The row of a key.
    fn at(&self, key: &CatKey) -> Option<&'a CatRow>
        ensures { option_copied result ≡ row_of self.now key.now }
    {
        match key {
            CatKey::Ns(ns) => namespace_row(self.rows, ns),
            CatKey::Table(table) => table_row(self.rows, table),
            CatKey::Region(region) => self.region(region),
        }
    }
}

/// The key of a namespace.
pub fn namespace_key(alloc: Global, ns: &Ns) -> Result<CatKey, AllocError>
    ensures { IfOk result (λ key. key ≡ key_is.Ns ns.now) }
{
    Ok(CatKey::Ns(ns.copy(alloc)?))
}

/// The key of a table.
pub fn table_key(alloc: Global, table: &TableName) -> Result<CatKey, AllocError>
    ensures { IfOk result (λ key. key ≡ key_is.Table table.now) }
{
    Ok(CatKey::Table(table.copy(alloc)?))
}

/// The key of a region.
pub fn region_key(alloc: Global, region: &RegionName) -> Result<CatKey, AllocError>
    ensures { IfOk result (λ key. key ≡ key_is.Region region.now) }
{
    Ok(CatKey::Region(region.copy(alloc)?))
}

fn is_table_in(ns: &Ns, key: &CatKey) -> bool
    ensures { result ≡ within ns.now key.now }
{
    match key {
        CatKey::Table(table) => ns.as_bytes() == table.ns.as_bytes(),
        _ => false,
    }
}

/// Whether a namespace has a table among rows.
pub fn has_table(ns: &Ns, rows: &[(CatKey, CatRow)]) -> bool
    ensures { result ≡ tabled ns.now rows.now }
{
    for (key, _) in rows {
        if is_table_in(ns, key) {
            return true;
        }
    }
    false
}

// A copy of the row of a key among rows.
fn row_copy(alloc: Global, rows: &Rows<'_>, key: &CatKey) -> Result<Option<CatRow>, AllocError>
    ensures { IfOk result (λ row. row ≡ row_of rows.now key.now) }
{
    match rows.at(key) {
        None => Ok(None),
        Some(row) => Ok(Some(row.copy(alloc)?)),
    }
}

/// The row of the key set, as a step tells it: with the row that was there.
pub fn set_row(
    alloc: Global,
    rows: &Rows<'_>,
    key: CatKey,
    after: Option<CatRow>,
) -> Result<Edit, AllocError>
    ensures { IfOk result (λ edit. edit ≡ set_to (row_of rows.now) key after) }
{
    match row_copy(alloc, rows, &key) {
        Ok(before) => Ok(Edit { key, before, after }),
        Err(refused) => {
            drop(key);
            drop(after);
            Err(refused)
        }
    }
}

/// The row of the key as it is, as an edit that is still to change it.
pub fn kept_row(alloc: Global, rows: &Rows<'_>, key: CatKey) -> Result<Edit, AllocError>
    ensures { IfOk result (λ edit. edit ≡ set_to (row_of rows.now) key (row_of rows.now key)) }
{
    match row_copy(alloc, rows, &key) {
        Ok(row) => set_row(alloc, rows, key, row),
        Err(refused) => {
            drop(key);
            Err(refused)
        }
    }
}

fn put_state(row: &mut CatRow, state: TableState)
    ensures { row.new ≡ put_in state row.old }
{
    if let CatRow::Table {
        state: before,
        version: _,
    } = row
    {
        *before = state;
    }
}

fn put_version(row: &mut CatRow, version: u64)
    ensures { row.new ≡ versioned version row.old }
{
    if let CatRow::Table {
        state: _,
        version: before,
    } = row
    {
        *before = version;
    }
}

/// A table set to a state, with its version.
pub fn set_state(
    alloc: Global,
    rows: &Rows<'_>,
    table: &TableName,
    state: TableState,
) -> Result<Edit, AllocError>
    ensures { IfOk result (λ edit. edit ≡ changed (row_of rows.now) (key_is.Table table.now) (put_in state)) }
{
    let key = table_key(alloc, table)?;
    let mut edit = kept_row(alloc, rows, key)?;
    if let Some(row) = &mut edit.after {
        put_state(row, state);
    }
    Ok(edit)
}

/// A table given a version, in its state.
pub fn set_version(
    alloc: Global,
    rows: &Rows<'_>,
    table: &TableName,
    version: u64,
) -> Result<Edit, AllocError>
    ensures { IfOk result (λ edit. edit ≡ changed (row_of rows.now) (key_is.Table table.now) (versioned version)) }
{
    let key = table_key(alloc, table)?;
    let mut edit = kept_row(alloc, rows, key)?;
    if let Some(row) = &mut edit.after {
        put_version(row, version);
    }
    Ok(edit)
}
