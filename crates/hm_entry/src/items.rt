ghost use Rattle.hm_entry.specs.Reading.{key_at, region_at, server_at, u64_at};

use crate::fault::EntryFault;
use crate::fields::u64;
use crate::get::Get;
use crate::names::{key, region, server};
use hm_names::{RegionName, RowKey, ServerName};
use hm_wire::Reader;
use std::alloc::Global;

impl Get for u64 {
    ghost read = { u64_at };

    fn get(_alloc: Global, r: &mut Reader) -> Result<u64, EntryFault> {
        u64(r)
    }
}

impl Get for RowKey {
    ghost read = { key_at };

    fn get(alloc: Global, r: &mut Reader) -> Result<RowKey, EntryFault> {
        key(alloc, r)
    }
}

impl Get for RegionName {
    ghost read = { region_at };

    fn get(alloc: Global, r: &mut Reader) -> Result<RegionName, EntryFault> {
        region(alloc, r)
    }
}

impl Get for ServerName {
    ghost read = { server_at };

    fn get(alloc: Global, r: &mut Reader) -> Result<ServerName, EntryFault> {
        server(alloc, r)
    }
}
