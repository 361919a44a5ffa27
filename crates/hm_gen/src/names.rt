//! The names that the script gives.
ghost use Rattle.std.specs.Prelude.{◌≡◌, ◌≤◌, ◌<◌, IfOk, Ok};
ghost use Rattle.hm_gen.specs.Generated.{server as server_of, table as table_of, split_key as split_key_of, split_keys as split_keys_of, region as region_of};

use hm_names::{Host, List, NameFault, Ns, Qualifier, RegionName, RowKey, ServerName, TableName};
use std::alloc::{AllocError, Global};

// A name that is made here is at no fault, so where there is none memory ran out.
fn in_memory<T: Drop>(name: Result<T, NameFault>) -> Result<T, AllocError>
    ensures { IfOk result (λ value. name ≡ Ok value) }
{
    match name {
        Ok(value) => Ok(value),
        Err(_) => Err(AllocError),
    }
}

/// The server with a number.
pub(crate) fn server(alloc: Global, number: u8) -> Result<ServerName, AllocError>
    ensures { IfOk result (λ server. server ≡ server_of number) }
{
    let host = format!(in alloc; "h{number}")?;
    Ok(ServerName {
        host: in_memory(Host::of(alloc, host.as_bytes()))?,
        port: 16020,
        start: 1,
    })
}

/// The table with a number.
pub(crate) fn table(alloc: Global, number: u64) -> Result<TableName, AllocError>
    ensures { IfOk result (λ table. table ≡ table_of number) }
{
    let qualifier = format!(in alloc; "g{number}")?;
    Ok(TableName {
        ns: in_memory(Ns::of(alloc, b"default"))?,
        qualifier: in_memory(Qualifier::of(alloc, qualifier.as_bytes()))?,
    })
}

/// The region at a place among those of all tables.
pub(crate) fn region(alloc: Global, place: u64) -> Result<RegionName, AllocError>
    ensures { IfOk result (λ region. region ≡ region_of place) }
{
    Ok(RegionName {
        table: table(alloc, place / 64)?,
        id: place % 64 + 1,
    })
}

// The split key with a number.
fn split_key(alloc: Global, number: u8) -> Result<RowKey, AllocError>
    requires { number < 100 }
    ensures { IfOk result (λ key. key ≡ split_key_of number) }
{
    let bytes = [b'k', b'0' + number / 10, b'0' + number % 10];
    in_memory(RowKey::of(alloc, &bytes))
}

/// The keys that split a table into so many regions.
pub(crate) fn split_keys(alloc: Global, regions: u8) -> Result<List<RowKey>, AllocError>
    requires some { 1 ≤ regions }
    requires most { regions ≤ 64 }
    ensures { IfOk result (λ keys. keys ≡ split_keys_of regions) }
{
    let mut keys = Vec::new(alloc);
    for number in 1..regions {
        keys.push(split_key(alloc, number)?)?;
    }
    Ok(List::of(keys))
}
