//! What a request does to a catalog at once.
ghost use Rattle.std.specs.Prelude.{◌≡◌, ◌^◌, ◌≤◌, ◌<◌, IfOk, None};
ghost use Rattle.hm_model.specs.Catalog.{row_at};
ghost use Rattle.hm_model.specs.Deeds.{deed as deed_of};
ghost use Rattle.hm_model.specs.Requests.{wrong_in};
ghost use Rattle.hm_catalog.specs.Deeds.{IsDeed, against as against_of, edits_for as edits_of};
ghost use Rattle.hm_catalog.specs.Rows.{keys_in};

use crate::catalog::Catalog;
use crate::checks::{
    can_split, namespace_empty, namespace_free, region_ready, table_disabled, table_enabled,
    table_free,
};
use crate::edits::{Change, change_table, create_table, delete_table, one, setting, split_region};
use crate::merges::{against_merge, merge_regions};
use crate::name::Name;
use hm_data::{CatKey, CatRow, Cause, Edit, Request, TableState};
use hm_names::{Copied, List};
use std::alloc::{AllocError, Global};
use thiserror::Error;

/// Why a request has no deed.
#[derive(Debug, Drop, Error, PartialEq, Eq)]
pub enum DeedWhy {
    /// The first cause that stands against it.
    #[error("cause {0:?}")]
    Cause(Cause),
    #[error("out of memory")]
    Memory,
}

// The first cause against a request.
fn against(request: &Request, catalog: &Catalog) -> Option<Cause>
    requires { wrong_in request.now ≡ None }
    ensures { result ≡ against_of request.now catalog.now.rows }
{
    match request {
        Request::CreateNamespace { ns } => namespace_free(catalog.get(&Name::Ns(ns))),
        Request::DropNamespace { ns } => {
            namespace_empty(catalog.get(&Name::Ns(ns)), catalog.has_table(ns))
        }
        Request::CreateTable { table, keys: _ } => table_free(
            catalog.get(&Name::Ns(&table.ns)),
            catalog.get(&Name::Table(table)),
        ),
        Request::DeleteTable { table }
        | Request::EnableTable { table }
        | Request::ModifyTable { table, version: _ } => {
            table_disabled(catalog.get(&Name::Table(table)))
        }
        Request::DisableTable { table } => table_enabled(catalog.get(&Name::Table(table))),
        Request::SplitRegion { region, key } => can_split(
            catalog.get(&Name::Table(&region.table)),
            catalog.get(&Name::Region(region)),
            key,
        ),
        Request::MergeRegions { regions } => against_merge(regions.as_slice(), catalog),
        Request::Move { region, to: _ } => region_ready(
            catalog.get(&Name::Table(&region.table)),
            catalog.get(&Name::Region(region)),
        ),
    }
}

// The edits of a request that no cause stands against.
fn edits_for(
    alloc: Global,
    request: &Request,
    first: u64,
    catalog: &Catalog,
) -> Result<Vec<Edit>, AllocError>
    requires first { 1 ≤ first }
    requires ids { first < 2 ^ 32 }
    requires right { wrong_in request.now ≡ None }
    requires free { against_of request.now catalog.now.rows ≡ None }
    ensures { IfOk result (λ edits. edits.items ≡ edits_of request.now first catalog.now.rows) }
{
    match request {
        Request::CreateNamespace { ns } => {
            let key = CatKey::Ns(ns.copy(alloc)?);
            one(alloc, setting(alloc, catalog, key, Some(CatRow::Ns))?)
        }
        Request::DropNamespace { ns } => {
            let key = CatKey::Ns(ns.copy(alloc)?);
            one(alloc, setting(alloc, catalog, key, None)?)
        }
        Request::CreateTable { table, keys } => {
            create_table(alloc, catalog, table, keys.as_slice(), first)
        }
        Request::DeleteTable { table } => delete_table(alloc, catalog, table),
        Request::EnableTable { table } => {
            change_table(alloc, catalog, table, Change::State(TableState::Enabled))
        }
        Request::DisableTable { table } => {
            change_table(alloc, catalog, table, Change::State(TableState::Disabled))
        }
        Request::ModifyTable { table, version } => {
            change_table(alloc, catalog, table, Change::Version(*version))
        }
        Request::SplitRegion { region, key } => split_region(alloc, catalog, region, key, first),
        Request::MergeRegions { regions } => {
            merge_regions(alloc, catalog, regions.as_slice(), first)
        }
        Request::Move { region: _, to: _ } => Ok(Vec::new(alloc)),
    }
}

/// The edits of a request in a catalog, done at once, with the first id that was drawn for it; or the first cause against it.
/// Only making the edits takes memory.
pub fn deed(
    alloc: Global,
    request: &Request,
    first: u64,
    catalog: &Catalog,
) -> Result<List<Edit>, DeedWhy>
    requires first { 1 ≤ first }
    requires ids { first < 2 ^ 32 }
    requires right { wrong_in request.now ≡ None }
    ensures { IsDeed result (deed_of request.now first (keys_in catalog.now.rows) (row_at catalog.now.rows)) }
{
    // The rows are in order.
    let _rows = catalog.len();
    if let Some(cause) = against(request, catalog) {
        return Err(DeedWhy::Cause(cause));
    }
    match edits_for(alloc, request, first, catalog) {
        Ok(edits) => Ok(List::of(edits)),
        Err(_) => Err(DeedWhy::Memory),
    }
}
