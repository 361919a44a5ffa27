//! What a procedure asks for.
ghost use Rattle.std.specs.Prelude.{◌≡◌, ◌+◌, ◌<◌, ◌≤◌, ◌^◌, ◌++◌, [], ◌∷◌, map, IfOk, OnOk};
ghost use Rattle.hm_model.specs.declared.lock.Resource.TheVariants as resource_is;
ghost use Rattle.hm_model.specs.Locks.{asks, exclusive, in_name_order, merge_asks, region_alone, request_asks, shared, table_alone, table_shared};
ghost use Rattle.hm_locks.specs.Needs.{HasFirst};

use crate::order::in_name_order;
use hm_data::{Args, Request};
use hm_model::{Ask, Resource};
use hm_names::{Copied, List, RegionName, TableName};
use std::alloc::{AllocError, Global};

// A resource with others.
fn shared(resource: Resource) -> Ask
    ensures { result ≡ shared resource }
{
    Ask {
        resource,
        exclusive: false,
    }
}

// A resource alone.
fn exclusive(resource: Resource) -> Ask
    ensures { result ≡ exclusive resource }
{
    Ask {
        resource,
        exclusive: true,
    }
}

// One ask.
fn only(alloc: Global, ask: Ask) -> Result<Vec<Ask>, AllocError>
    ensures { IfOk result (λ v. v.items ≡ ask ∷ []) }
{
    let mut asks = Vec::new(alloc);
    asks.push(ask)?;
    Ok(asks)
}

// A table and its namespace, both shared.
fn table_shared(alloc: Global, table: &TableName) -> Result<Vec<Ask>, AllocError>
    ensures { IfOk result (λ v. v.items ≡ table_shared table.now) }
{
    let mut asks = only(alloc, shared(Resource::Ns(table.ns.copy(alloc)?)))?;
    asks.push(shared(Resource::Table(table.copy(alloc)?)))?;
    Ok(asks)
}

// A table exclusively, its namespace shared.
fn table_alone(alloc: Global, table: &TableName) -> Result<Vec<Ask>, AllocError>
    ensures { IfOk result (λ v. v.items ≡ table_alone table.now) }
{
    let mut asks = only(alloc, shared(Resource::Ns(table.ns.copy(alloc)?)))?;
    asks.push(exclusive(Resource::Table(table.copy(alloc)?)))?;
    Ok(asks)
}

// A region by its table and number.
fn region_alone(alloc: Global, table: &TableName, id: u64) -> Result<Ask, AllocError>
    requires { 1 ≤ id }
    ensures { IfOk result (λ ask. ask ≡ region_alone table.now id) }
{
    let table = table.copy(alloc)?;
    Ok(exclusive(Resource::Region(RegionName { table, id })))
}

// A region exclusively, its table and namespace shared.
fn region_asks(alloc: Global, region: &RegionName) -> Result<Vec<Ask>, AllocError>
    ensures { IfOk result (λ v. v.items ≡ table_shared region.now.table ++ exclusive (resource_is.Region region.now) ∷ []) }
{
    let mut asks = table_shared(alloc, &region.table)?;
    asks.push(exclusive(Resource::Region(region.copy(alloc)?)))?;
    Ok(asks)
}

// A split: the region, and both that come of it.
fn split_asks(alloc: Global, region: &RegionName, first: u64) -> Result<Vec<Ask>, AllocError>
    requires low { 1 ≤ first }
    requires high { first < 2 ^ 32 }
    ensures { IfOk result (λ v. v.items ≡ table_shared region.now.table ++ exclusive (resource_is.Region region.now) ∷ region_alone region.now.table first ∷ region_alone region.now.table (first + 1) ∷ []) }
{
    let mut asks = region_asks(alloc, region)?;
    asks.push(region_alone(alloc, &region.table, first)?)?;
    asks.push(region_alone(alloc, &region.table, first + 1)?)?;
    Ok(asks)
}

// Adds each region exclusively.
fn add_regions(asks: &mut Vec<Ask>, alloc: Global, regions: &[RegionName]) -> Result<(), AllocError>
    ensures { OnOk result (asks.new.items ≡ asks.old.items ++ map (λ r. exclusive (resource_is.Region r)) regions.now) }
{
    for region in regions {
        asks.push(exclusive(Resource::Region(region.copy(alloc)?)))?;
    }
    Ok(())
}

// A merge: its regions, and the one that comes of them.
fn merge_asks(alloc: Global, regions: &[RegionName], first: u64) -> Result<Vec<Ask>, AllocError>
    requires { 1 ≤ first }
    ensures { IfOk result (λ v. v.items ≡ merge_asks regions.now first) }
{
    let Some(region) = regions.first() else {
        return Ok(Vec::new(alloc));
    };
    let sorted = in_name_order(alloc, regions)?;
    let mut asks = table_shared(alloc, &region.table)?;
    add_regions(&mut asks, alloc, &sorted)?;
    asks.push(region_alone(alloc, &region.table, first)?)?;
    Ok(asks)
}

// What a request asks for.
fn request_asks(alloc: Global, request: &Request, first: u64) -> Result<Vec<Ask>, AllocError>
    requires low { 1 ≤ first }
    requires high { first < 2 ^ 32 }
    ensures { IfOk result (λ v. v.items ≡ request_asks request.now first) }
{
    match request {
        Request::CreateNamespace { ns } | Request::DropNamespace { ns } => {
            only(alloc, exclusive(Resource::Ns(ns.copy(alloc)?)))
        }
        Request::CreateTable { table, keys: _ }
        | Request::DeleteTable { table }
        | Request::EnableTable { table }
        | Request::DisableTable { table }
        | Request::ModifyTable { table, version: _ } => table_alone(alloc, table),
        Request::SplitRegion { region, key: _ } => split_asks(alloc, region, first),
        Request::MergeRegions { regions } => merge_asks(alloc, regions.as_slice(), first),
        Request::Move { region, to: _ } => region_asks(alloc, region),
    }
}

/// What a procedure asks for, in the order in which it is listed.
pub fn asks(alloc: Global, args: &Args) -> Result<List<Ask>, AllocError>
    requires { HasFirst args.now }
    ensures { IfOk result (λ list. list ≡ asks args.now) }
{
    let asked = match args {
        Args::Root { request, first } => request_asks(alloc, request, *first)?,
        Args::Transit {
            region,
            goal: _,
            to: _,
        } => region_asks(alloc, region)?,
        Args::Crash { server } => only(alloc, exclusive(Resource::Server(server.copy(alloc)?)))?,
        _ => Vec::new(alloc),
    };
    Ok(List::of(asked))
}
