ghost use Rattle.std.specs.Prelude.{◌≡◌, IfOk};
ghost use Rattle.hm_data.specs.declared.request.Request.TheVariants as request_is;

use crate::pair::copy_two;
use hm_names::{Copied, List, Ns, RegionName, RowKey, Same, ServerName, TableName};
use std::alloc::{AllocError, Global};

/// What a client submits.
#[derive(Drop)]
pub enum Request {
    CreateNamespace {
        ns: Ns,
    },
    DropNamespace {
        ns: Ns,
    },
    /// The keys split the table into regions.
    CreateTable {
        table: TableName,
        keys: List<RowKey>,
    },
    DeleteTable {
        table: TableName,
    },
    EnableTable {
        table: TableName,
    },
    DisableTable {
        table: TableName,
    },
    ModifyTable {
        table: TableName,
        version: u64,
    },
    SplitRegion {
        region: RegionName,
        key: RowKey,
    },
    MergeRegions {
        regions: List<RegionName>,
    },
    /// To a server, or to any.
    Move {
        region: RegionName,
        to: Option<ServerName>,
    },
}

fn copy_create_namespace(ns: &Ns, alloc: Global) -> Result<Request, AllocError>
    ensures { IfOk result (λ it. it ≡ request_is.CreateNamespace ns.now) }
{
    Ok(Request::CreateNamespace {
        ns: ns.copy(alloc)?,
    })
}

fn copy_drop_namespace(ns: &Ns, alloc: Global) -> Result<Request, AllocError>
    ensures { IfOk result (λ it. it ≡ request_is.DropNamespace ns.now) }
{
    Ok(Request::DropNamespace {
        ns: ns.copy(alloc)?,
    })
}

fn copy_create_table(
    table: &TableName,
    keys: &List<RowKey>,
    alloc: Global,
) -> Result<Request, AllocError>
    ensures { IfOk result (λ it. it ≡ request_is.CreateTable table.now keys.now) }
{
    let (table, keys) = copy_two(table, keys, alloc)?;
    Ok(Request::CreateTable { table, keys })
}

fn copy_delete_table(table: &TableName, alloc: Global) -> Result<Request, AllocError>
    ensures { IfOk result (λ it. it ≡ request_is.DeleteTable table.now) }
{
    Ok(Request::DeleteTable {
        table: table.copy(alloc)?,
    })
}

fn copy_enable_table(table: &TableName, alloc: Global) -> Result<Request, AllocError>
    ensures { IfOk result (λ it. it ≡ request_is.EnableTable table.now) }
{
    Ok(Request::EnableTable {
        table: table.copy(alloc)?,
    })
}

fn copy_disable_table(table: &TableName, alloc: Global) -> Result<Request, AllocError>
    ensures { IfOk result (λ it. it ≡ request_is.DisableTable table.now) }
{
    Ok(Request::DisableTable {
        table: table.copy(alloc)?,
    })
}

fn copy_modify_table(table: &TableName, version: u64, alloc: Global) -> Result<Request, AllocError>
    ensures { IfOk result (λ it. it ≡ request_is.ModifyTable table.now version) }
{
    Ok(Request::ModifyTable {
        table: table.copy(alloc)?,
        version,
    })
}

fn copy_split_region(
    region: &RegionName,
    key: &RowKey,
    alloc: Global,
) -> Result<Request, AllocError>
    ensures { IfOk result (λ it. it ≡ request_is.SplitRegion region.now key.now) }
{
    let (region, key) = copy_two(region, key, alloc)?;
    Ok(Request::SplitRegion { region, key })
}

fn copy_merge_regions(regions: &List<RegionName>, alloc: Global) -> Result<Request, AllocError>
    ensures { IfOk result (λ it. it ≡ request_is.MergeRegions regions.now) }
{
    Ok(Request::MergeRegions {
        regions: regions.copy(alloc)?,
    })
}

fn copy_move(
    region: &RegionName,
    to: &Option<ServerName>,
    alloc: Global,
) -> Result<Request, AllocError>
    ensures { IfOk result (λ it. it ≡ request_is.Move region.now to.now) }
{
    let (region, to) = copy_two(region, to, alloc)?;
    Ok(Request::Move { region, to })
}

impl Copied for Request {
    fn copy(&self, alloc: Global) -> Result<Request, AllocError> {
        match self {
            Request::CreateNamespace { ns } => copy_create_namespace(ns, alloc),
            Request::DropNamespace { ns } => copy_drop_namespace(ns, alloc),
            Request::CreateTable { table, keys } => copy_create_table(table, keys, alloc),
            Request::DeleteTable { table } => copy_delete_table(table, alloc),
            Request::EnableTable { table } => copy_enable_table(table, alloc),
            Request::DisableTable { table } => copy_disable_table(table, alloc),
            Request::ModifyTable { table, version } => copy_modify_table(table, *version, alloc),
            Request::SplitRegion { region, key } => copy_split_region(region, key, alloc),
            Request::MergeRegions { regions } => copy_merge_regions(regions, alloc),
            Request::Move { region, to } => copy_move(region, to, alloc),
        }
    }
}

impl Same for Request {
    fn same(&self, other: &Request) -> bool {
        match self {
            Request::CreateNamespace { ns } => match other {
                Request::CreateNamespace { ns: other_ns } => ns.same(other_ns),
                _ => false,
            },
            Request::DropNamespace { ns } => match other {
                Request::DropNamespace { ns: other_ns } => ns.same(other_ns),
                _ => false,
            },
            Request::CreateTable { table, keys } => match other {
                Request::CreateTable {
                    table: other_table,
                    keys: other_keys,
                } => table.same(other_table) && keys.same(other_keys),
                _ => false,
            },
            Request::DeleteTable { table } => match other {
                Request::DeleteTable { table: other_table } => table.same(other_table),
                _ => false,
            },
            Request::EnableTable { table } => match other {
                Request::EnableTable { table: other_table } => table.same(other_table),
                _ => false,
            },
            Request::DisableTable { table } => match other {
                Request::DisableTable { table: other_table } => table.same(other_table),
                _ => false,
            },
            Request::ModifyTable { table, version } => match other {
                Request::ModifyTable {
                    table: other_table,
                    version: other_version,
                } => table.same(other_table) && version == other_version,
                _ => false,
            },
            Request::SplitRegion { region, key } => match other {
                Request::SplitRegion {
                    region: other_region,
                    key: other_key,
                } => region.same(other_region) && key.same(other_key),
                _ => false,
            },
            Request::MergeRegions { regions } => match other {
                Request::MergeRegions {
                    regions: other_regions,
                } => regions.same(other_regions),
                _ => false,
            },
            Request::Move { region, to } => match other {
                Request::Move {
                    region: other_region,
                    to: other_to,
                } => region.same(other_region) && to.same(other_to),
                _ => false,
            },
        }
    }
}
