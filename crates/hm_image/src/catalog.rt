//! The parts of the namespaces, the tables and the regions.
ghost use Rattle.std.specs.Prelude.{◌≡◌, ◌++◌, IfOk, OnOk};
ghost use Rattle.std.specs.List.{flat_map};
ghost use Rattle.hm_data.specs.declared.catalog.CatKey.TheVariants as key_is;
ghost use Rattle.hm_data.specs.declared.part.Part.TheVariants as part_is;
ghost use Rattle.hm_model.specs.Base.{IsBegun};
ghost use Rattle.hm_model.specs.Catalog.{row_at};
ghost use Rattle.hm_model.specs.Image.{catalog_parts, table_in, table_parts};
ghost use Rattle.hm_model.specs.Rebase.{under_way};
ghost use Rattle.hm_places.specs.Places.{place_in};
ghost use Rattle.hm_image.specs.Catalog.{region_parts, space_parts, table_told};

use crate::add::add_part;
use hm_catalog::laws::rows_tell;
use hm_catalog::{Catalog, Name};
use hm_cover::live_regions_cover;
use hm_data::{CatKey, CatRow, Part, Status, TableState};
use hm_ids::region_ids_are_drawn;
use hm_index::View;
use hm_names::{Copied, KeyRange, List, RegionName, TableName};
use hm_places::{Places, places_follow};
use hm_records::Records;
use std::alloc::{AllocError, Global};

// Adds the part of a namespace, if the key is of one.
fn add_space(alloc: Global, key: &CatKey, parts: &mut Vec<Part>) -> Result<(), AllocError>
    ensures { OnOk result (parts.new.items ≡ parts.old.items ++ space_parts key.now) }
{
    match key {
        CatKey::Ns(ns) => {
            let ns = ns.copy(alloc)?;
            add_part(parts, Part::Namespace { ns })
        }
        _ => Ok(()),
    }
}

// Adds the parts of the namespaces.
fn add_spaces(alloc: Global, catalog: &Catalog, parts: &mut Vec<Part>) -> Result<(), AllocError>
    ensures { OnOk result (parts.new.items ≡ parts.old.items ++ flat_map (λ row. space_parts row.0) catalog.now.rows) }
{
    for (key, _row) in catalog.rows() {
        add_space(alloc, key, parts)?;
    }
    Ok(())
}

// The state and version in a table's row.
fn state_in(row: &CatRow) -> Option<(TableState, u64)>
    ensures { result ≡ table_in (Some row.now) }
{
    match row {
        CatRow::Table { state, version } => Some((*state, *version)),
        _ => None,
    }
}

// The state and version in the row of a table, if it has one.
fn state_of(catalog: &Catalog, table: &TableName) -> Option<(TableState, u64)>
    ensures { result ≡ table_in (row_at catalog.now.rows (key_is.Table table.now)) }
{
    state_in(catalog.get(&Name::Table(table))?)
}

// Adds the part of a table for which so many region ids were drawn, where it has a row or ids were drawn.
fn add_table(
    alloc: Global,
    catalog: &Catalog,
    table: &TableName,
    drawn: u64,
    parts: &mut Vec<Part>,
) -> Result<(), AllocError>
    ensures { OnOk result (parts.new.items ≡ parts.old.items ++ table_parts table.now drawn (table_in (row_at catalog.now.rows (key_is.Table table.now)))) }
{
    let row = state_of(catalog, table);
    if drawn == 0 && row.is_none() {
        return Ok(());
    }
    let table = table.copy(alloc)?;
    add_part(parts, Part::Table { table, drawn, row })
}

// Adds the parts of tables for which region ids were drawn.
fn add_tables(
    alloc: Global,
    catalog: &Catalog,
    tables: View<'_, TableName, u64>,
    parts: &mut Vec<Part>,
) -> Result<(), AllocError>
    ensures { OnOk result (parts.new.items ≡ parts.old.items ++ flat_map (table_told catalog.now.rows) tables.entry) }
{
    for (table, drawn) in tables.iter() {
        add_table(alloc, catalog, table, *drawn, parts)?;
    }
    Ok(())
}

// The part of a region.
fn region_part(
    alloc: Global,
    places: &Places,
    region: &RegionName,
    range: &KeyRange,
    status: Status,
    parents: &List<u64>,
) -> Result<Part, AllocError>
    ensures { IfOk result (λ part. part ≡ part_is.Region region.now range.now status parents.now (place_in places.now.places region.now)) }
{
    Ok(Part::Region {
        region: region.copy(alloc)?,
        range: range.copy(alloc)?,
        status,
        parents: parents.copy(alloc)?,
        place: places.of(region).copy(alloc)?,
    })
}

// Adds the part of a region with its row.
fn add_row(
    alloc: Global,
    places: &Places,
    region: &RegionName,
    row: &CatRow,
    parts: &mut Vec<Part>,
) -> Result<(), AllocError>
    ensures { OnOk result (parts.new.items ≡ parts.old.items ++ region_parts places.now.places (key_is.Region region.now) row.now) }
{
    match row {
        CatRow::Region {
            range,
            status,
            parents,
        } => {
            let part = region_part(alloc, places, region, range, *status, parents)?;
            add_part(parts, part)
        }
        _ => Ok(()),
    }
}

// Adds the part of a region, if the key is of one.
fn add_region(
    alloc: Global,
    places: &Places,
    key: &CatKey,
    row: &CatRow,
    parts: &mut Vec<Part>,
) -> Result<(), AllocError>
    ensures { OnOk result (parts.new.items ≡ parts.old.items ++ region_parts places.now.places key.now row.now) }
{
    match key {
        CatKey::Region(region) => add_row(alloc, places, region, row, parts),
        _ => Ok(()),
    }
}

// Adds the parts of the regions.
fn add_regions(
    alloc: Global,
    catalog: &Catalog,
    places: &Places,
    parts: &mut Vec<Part>,
) -> Result<(), AllocError>
    ensures { OnOk result (parts.new.items ≡ parts.old.items ++ flat_map (λ row. region_parts places.now.places row.0 row.1) catalog.now.rows) }
{
    for (key, row) in catalog.rows() {
        add_region(alloc, places, key, row, parts)?;
    }
    Ok(())
}

// Adds the parts of the namespaces, of the tables and of the regions of a journal. A table that has a row has regions, whose ids
// were drawn.
pub(crate) fn add_catalog(
    alloc: Global,
    records: &Records,
    parts: &mut Vec<Part>,
) -> Result<(), AllocError>
    requires begun { IsBegun records.now.past }
    requires settled { under_way records.now.past ≡ 0 }
    ensures { OnOk result (parts.new.items ≡ parts.old.items ++ catalog_parts records.now.past) }
{
    rows_tell();
    places_follow();
    live_regions_cover();
    region_ids_are_drawn();
    let _legal = records.procedures();
    let catalog = records.catalog();
    let tables = records.drawn_tables();
    let _rising = tables.len();
    add_spaces(alloc, catalog, parts)?;
    add_tables(alloc, catalog, tables, parts)?;
    add_regions(alloc, catalog, records.places(), parts)
}
