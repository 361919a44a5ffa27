ghost use Rattle.hm_entry.specs.Reading.{Gives, ns_at, qualifier_at, host_at, key_at, table_at, region_at, server_at, range_at, pid_at, nonce_at};

use crate::fault::EntryFault;
use crate::fields::{id, port, text, u64};
use hm_names::{
    Host, KeyRange, NameFault, Nonce, Ns, Pid, Qualifier, RegionName, RowKey, ServerName, TableName,
};
use hm_wire::Reader;
use std::alloc::Global;

#[tactic(auto, unfolding(crate::specs::Reading::ns_at))]
pub(crate) fn ns(alloc: Global, r: &mut Reader) -> Result<Ns, EntryFault>
    ensures { Gives result (ns_at r.old) r.new }
{
    let at = r.at();
    let bytes = text(r, 64)?;
    match Ns::of(alloc, bytes) {
        Ok(name) => Ok(name),
        Err(NameFault::Memory) => Err(EntryFault::Memory),
        Err(_) => Err(EntryFault::Field(at)),
    }
}

#[tactic(auto, unfolding(crate::specs::Reading::qualifier_at))]
pub(crate) fn qualifier(alloc: Global, r: &mut Reader) -> Result<Qualifier, EntryFault>
    ensures { Gives result (qualifier_at r.old) r.new }
{
    let at = r.at();
    let bytes = text(r, 128)?;
    match Qualifier::of(alloc, bytes) {
        Ok(name) => Ok(name),
        Err(NameFault::Memory) => Err(EntryFault::Memory),
        Err(_) => Err(EntryFault::Field(at)),
    }
}

#[tactic(auto, unfolding(crate::specs::Reading::host_at))]
pub(crate) fn host(alloc: Global, r: &mut Reader) -> Result<Host, EntryFault>
    ensures { Gives result (host_at r.old) r.new }
{
    let at = r.at();
    let bytes = text(r, 64)?;
    match Host::of(alloc, bytes) {
        Ok(name) => Ok(name),
        Err(NameFault::Memory) => Err(EntryFault::Memory),
        Err(_) => Err(EntryFault::Field(at)),
    }
}

#[tactic(auto, unfolding(crate::specs::Reading::key_at))]
pub(crate) fn key(alloc: Global, r: &mut Reader) -> Result<RowKey, EntryFault>
    ensures { Gives result (key_at r.old) r.new }
{
    let at = r.at();
    let bytes = text(r, 128)?;
    match RowKey::of(alloc, bytes) {
        Ok(name) => Ok(name),
        Err(NameFault::Memory) => Err(EntryFault::Memory),
        Err(_) => Err(EntryFault::Field(at)),
    }
}

#[tactic(auto, unfolding(crate::specs::Reading::table_at))]
pub(crate) fn table(alloc: Global, r: &mut Reader) -> Result<TableName, EntryFault>
    ensures { Gives result (table_at r.old) r.new }
{
    let ns = ns(alloc, r)?;
    let qualifier = qualifier(alloc, r)?;
    Ok(TableName { ns, qualifier })
}

#[tactic(auto, unfolding(crate::specs::Reading::region_at))]
pub(crate) fn region(alloc: Global, r: &mut Reader) -> Result<RegionName, EntryFault>
    ensures { Gives result (region_at r.old) r.new }
{
    let table = table(alloc, r)?;
    let id = id(r)?;
    Ok(RegionName { table, id })
}

#[tactic(auto, unfolding(crate::specs::Reading::server_at))]
pub(crate) fn server(alloc: Global, r: &mut Reader) -> Result<ServerName, EntryFault>
    ensures { Gives result (server_at r.old) r.new }
{
    let host = host(alloc, r)?;
    let port = port(r)?;
    let start = id(r)?;
    Ok(ServerName { host, port, start })
}

#[tactic(auto, unfolding(crate::specs::Reading::range_at))]
pub(crate) fn range(alloc: Global, r: &mut Reader) -> Result<KeyRange, EntryFault>
    ensures { Gives result (range_at r.old) r.new }
{
    let start = key(alloc, r)?;
    let end = key(alloc, r)?;
    Ok(KeyRange { start, end })
}

#[tactic(auto, unfolding(crate::specs::Reading::pid_at))]
pub(crate) fn pid(r: &mut Reader) -> Result<Pid, EntryFault>
    ensures { Gives result (pid_at r.old) r.new }
{
    let number = u64(r)?;
    Ok(Pid(number))
}

#[tactic(auto, unfolding(crate::specs::Reading::nonce_at))]
pub(crate) fn nonce(r: &mut Reader) -> Result<Nonce, EntryFault>
    ensures { Gives result (nonce_at r.old) r.new }
{
    let group = u64(r)?;
    let number = u64(r)?;
    Ok(Nonce { group, number })
}
