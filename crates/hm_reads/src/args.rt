//! The rows that a step of a procedure reads.
ghost use Rattle.std.specs.Prelude.{◌≡◌, ◌==◌, ◌&&◌, ◌||◌, ◌+◌, length, nat_le, nat_lt, IfOk};
ghost use Rattle.std.specs.List.{list_any};
ghost use Rattle.hm_model.specs.Reads.{is_region, is_region_in, is_table, request_reads};
ghost use Rattle.hm_catalog.specs.Spans.{in_span, rows_of};
ghost use Rattle.hm_reads.specs.Reading.{read_of};

use crate::found::{add, beside_span, one, span_rows, two};
use hm_catalog::{Catalog, Name, Span};
use hm_data::{Args, CatKey, CatRow, Request};
use hm_names::{List, RegionName, RowKey, TableName};
use std::alloc::{AllocError, Global};

// A region's row and that of its table.
fn region_rows(
    alloc: Global,
    catalog: &Catalog,
    region: &RegionName,
) -> Result<Vec<(CatKey, CatRow)>, AllocError>
    ensures { IfOk result (λ found. found.items ≡ rows_of (λ key. is_table region.now.table key || is_region region.now key) catalog.now.rows) }
{
    two(
        alloc,
        catalog,
        &Name::Table(&region.table),
        &Name::Region(region),
    )
}

// The rows of some regions and of their tables.
fn merged_rows(
    alloc: Global,
    catalog: &Catalog,
    regions: &[RegionName],
) -> Result<Vec<(CatKey, CatRow)>, AllocError>
    ensures { IfOk result (λ found. found.items ≡ rows_of (λ key. list_any (λ region. is_table region.table key || is_region region key) regions.now) catalog.now.rows) }
{
    let mut found = Vec::new(alloc);
    for region in regions {
        add(alloc, catalog, &Name::Table(&region.table), &mut found)?;
        add(alloc, catalog, &Name::Region(region), &mut found)?;
    }
    Ok(found)
}

// The rows of a table's regions with some numbers.
fn numbered_rows(
    alloc: Global,
    catalog: &Catalog,
    table: &TableName,
    ids: &[u64],
) -> Result<Vec<(CatKey, CatRow)>, AllocError>
    ensures { IfOk result (λ found. found.items ≡ rows_of (is_region_in table.now (λ id. list_any (λ own. own == id) ids.now)) catalog.now.rows) }
{
    let mut found = Vec::new(alloc);
    for id in ids {
        add(alloc, catalog, &Name::RegionsFrom(table, *id), &mut found)?;
    }
    Ok(found)
}

// The rows that the steps of a request read.
fn request_rows(
    alloc: Global,
    catalog: &Catalog,
    request: &Request,
) -> Result<Vec<(CatKey, CatRow)>, AllocError>
    ensures { IfOk result (λ found. found.items ≡ rows_of (request_reads request.now) catalog.now.rows) }
{
    match request {
        Request::CreateNamespace { ns } => one(alloc, catalog, &Name::Ns(ns)),
        Request::DropNamespace { ns } => {
            beside_span(alloc, catalog, Span::Tables(ns), &Name::Ns(ns))
        }
        Request::CreateTable { table, keys: _ } => {
            two(alloc, catalog, &Name::Ns(&table.ns), &Name::Table(table))
        }
        Request::DeleteTable { table }
        | Request::EnableTable { table }
        | Request::DisableTable { table } => {
            beside_span(alloc, catalog, Span::Regions(table), &Name::Table(table))
        }
        Request::ModifyTable { table, version: _ } => one(alloc, catalog, &Name::Table(table)),
        Request::SplitRegion { region, key: _ } | Request::Move { region, to: _ } => {
            region_rows(alloc, catalog, region)
        }
        Request::MergeRegions { regions } => merged_rows(alloc, catalog, regions.as_slice()),
    }
}

// The rows that the steps of a procedure read.
fn args_rows(
    alloc: Global,
    catalog: &Catalog,
    args: &Args,
) -> Result<Vec<(CatKey, CatRow)>, AllocError>
    ensures { IfOk result (λ found. found.items ≡ read_of args.now catalog.now.rows) }
{
    match args {
        Args::Root { request, first: _ } => request_rows(alloc, catalog, request),
        Args::Transit {
            region,
            goal: _,
            to: _,
        } => region_rows(alloc, catalog, region),
        Args::AddRegions {
            table,
            first,
            bounds,
        } => span_rows(alloc, catalog, between(table, *first, bounds.as_slice())),
        Args::DropRegions { table, ids } => numbered_rows(alloc, catalog, table, ids.as_slice()),
        Args::Crash { server: _ }
        | Args::AssignCall { .. }
        | Args::CloseCall { .. }
        | Args::FenceCall { server: _ }
        | Args::LayoutCall { root: _ }
        | Args::SweepLayout { root: _ } => Ok(Vec::new(alloc)),
    }
}

// The regions between bounds.
fn between<'a>(table: &'a TableName, first: u64, bounds: &[RowKey]) -> Span<'a>
    ensures { (key : CatKey) → in_span result key ≡ is_region_in table.now (λ id. nat_le first id && nat_lt (id + 1) (first + length bounds.now)) key }
{
    let count = (bounds.len() as u64).saturating_sub(1);
    Span::Numbers {
        table,
        first,
        count,
    }
}

/// The rows that a step of a procedure reads, in key order: of the keys that its arguments name, those that have a row. Keys
/// that are named one by one are looked up, and those that stand together are gone over; no other key is looked at.
pub fn read(
    alloc: Global,
    catalog: &Catalog,
    args: &Args,
) -> Result<List<(CatKey, CatRow)>, AllocError>
    ensures { IfOk result (λ rows. rows ≡ read_of args.now catalog.now.rows) }
{
    Ok(List::of(args_rows(alloc, catalog, args)?))
}
