//! Rows of a catalog that were found, in key order.
ghost use Rattle.std.specs.Prelude.{◌≡◌, ◌||◌, Some, IfOk, OnOk};
ghost use Rattle.hm_data.specs.Keys.{key_cmp};
ghost use Rattle.hm_model.specs.Catalog.{row_at};
ghost use Rattle.hm_model.specs.Keys.{same_key};
ghost use Rattle.hm_model.specs.RowLaws.{AreInOrder};
ghost use Rattle.hm_model.specs.RowsSaid.{Rows};
ghost use Rattle.hm_catalog.specs.Kept.{key_of};
ghost use Rattle.hm_catalog.specs.Rows.{keys_in};
ghost use Rattle.hm_catalog.specs.Spans.{in_span, rows_of};
ghost use Rattle.hm_reads.specs.Reading.{Adds};

use hm_catalog::{Catalog, Name, Span};
use hm_data::laws::keys_order_by_name;
use hm_data::{CatKey, CatRow};
use hm_names::Copied;
use std::alloc::{AllocError, Global};

// Puts a row among those that were found, unless it is there.
fn put(
    alloc: Global,
    key: &CatKey,
    row: &CatRow,
    found: &mut Vec<(CatKey, CatRow)>,
) -> Result<(), AllocError>
    ensures { OnOk result ((all : Rows) → AreInOrder (keys_in all) → row_at all key.now ≡ Some row.now → Adds (same_key key.now) all found.old.items found.new.items) }
{
    keys_order_by_name();
    if let Err(place) = found.binary_search_by(|other| other.0.cmp(key)) {
        found.insert(place, (key.copy(alloc)?, row.copy(alloc)?))?;
    }
    Ok(())
}

// Adds the row of a key, if it has one.
pub(crate) fn add(
    alloc: Global,
    catalog: &Catalog,
    name: &Name<'_>,
    found: &mut Vec<(CatKey, CatRow)>,
) -> Result<(), AllocError>
    ensures { OnOk result (Adds (same_key (key_of name.now)) catalog.now.rows found.old.items found.new.items) }
{
    // The rows are in order.
    let _rows = catalog.len();
    match catalog.find(name) {
        Some((key, row)) => put(alloc, key, row, found),
        None => Ok(()),
    }
}

// The row of a key, if it has one.
pub(crate) fn one(
    alloc: Global,
    catalog: &Catalog,
    name: &Name<'_>,
) -> Result<Vec<(CatKey, CatRow)>, AllocError>
    ensures { IfOk result (λ found. found.items ≡ rows_of (same_key (key_of name.now)) catalog.now.rows) }
{
    let mut found = Vec::new(alloc);
    add(alloc, catalog, name, &mut found)?;
    Ok(found)
}

// The rows of two keys, as far as they have one.
pub(crate) fn two(
    alloc: Global,
    catalog: &Catalog,
    first: &Name<'_>,
    second: &Name<'_>,
) -> Result<Vec<(CatKey, CatRow)>, AllocError>
    ensures { IfOk result (λ found. found.items ≡ rows_of (λ key. same_key (key_of first.now) key || same_key (key_of second.now) key) catalog.now.rows) }
{
    let mut found = one(alloc, catalog, first)?;
    add(alloc, catalog, second, &mut found)?;
    Ok(found)
}

// The rows of keys that stand together.
pub(crate) fn span_rows(
    alloc: Global,
    catalog: &Catalog,
    span: Span<'_>,
) -> Result<Vec<(CatKey, CatRow)>, AllocError>
    ensures { IfOk result (λ found. found.items ≡ rows_of (in_span span.entry) catalog.now.rows) }
{
    let mut found = Vec::new(alloc);
    for (key, row) in catalog.rows_of(span) {
        found.push((key.copy(alloc)?, row.copy(alloc)?))?;
    }
    Ok(found)
}

// The rows of keys that stand together, and that of another key, if it has one.
pub(crate) fn beside_span(
    alloc: Global,
    catalog: &Catalog,
    span: Span<'_>,
    name: &Name<'_>,
) -> Result<Vec<(CatKey, CatRow)>, AllocError>
    ensures { IfOk result (λ found. found.items ≡ rows_of (λ key. in_span span.entry key || same_key (key_of name.now) key) catalog.now.rows) }
{
    let mut found = span_rows(alloc, catalog, span)?;
    add(alloc, catalog, name, &mut found)?;
    Ok(found)
}
