ghost use Rattle.hm_data.specs.declared.request.Request.TheVariants as request_is;
ghost use Rattle.hm_entry.specs.Reading.{Gives, of_two, list_at, option_at, u64_at, key_at, table_at, region_at, server_at, request_of, request_at};

use crate::fault::EntryFault;
use crate::fields::{byte, u64};
use crate::get::{list, option};
use crate::names::{key, ns, region, table};
use hm_data::Request;
use hm_wire::Reader;
use std::alloc::Global;

// The fields of a table to create.
fn created(alloc: Global, r: &mut Reader) -> Result<Request, EntryFault>
    ensures { Gives result (of_two request_is.CreateTable table_at (list_at key_at) r.old) r.new }
{
    Ok(Request::CreateTable {
        table: table(alloc, r)?,
        keys: list(alloc, r)?,
    })
}

// The fields of a table to modify.
fn modified(alloc: Global, r: &mut Reader) -> Result<Request, EntryFault>
    ensures { Gives result (of_two request_is.ModifyTable table_at u64_at r.old) r.new }
{
    Ok(Request::ModifyTable {
        table: table(alloc, r)?,
        version: u64(r)?,
    })
}

// The fields of a region to split.
fn split(alloc: Global, r: &mut Reader) -> Result<Request, EntryFault>
    ensures { Gives result (of_two request_is.SplitRegion region_at key_at r.old) r.new }
{
    Ok(Request::SplitRegion {
        region: region(alloc, r)?,
        key: key(alloc, r)?,
    })
}

// The fields of a region to move.
fn moved(alloc: Global, r: &mut Reader) -> Result<Request, EntryFault>
    ensures { Gives result (of_two request_is.Move region_at (option_at server_at) r.old) r.new }
{
    Ok(Request::Move {
        region: region(alloc, r)?,
        to: option(alloc, r)?,
    })
}

// A request of this kind, which stood at the place.
#[tactic(auto, unfolding(crate::specs::Reading::request_of))]
pub(crate) fn request_behind(
    alloc: Global,
    place: u64,
    kind: u8,
    r: &mut Reader,
) -> Result<Request, EntryFault>
    ensures { Gives result (request_of place kind r.old) r.new }
{
    match kind {
        1 => Ok(Request::CreateNamespace { ns: ns(alloc, r)? }),
        2 => Ok(Request::DropNamespace { ns: ns(alloc, r)? }),
        3 => created(alloc, r),
        4 => Ok(Request::DeleteTable {
            table: table(alloc, r)?,
        }),
        5 => Ok(Request::EnableTable {
            table: table(alloc, r)?,
        }),
        6 => Ok(Request::DisableTable {
            table: table(alloc, r)?,
        }),
        7 => modified(alloc, r),
        8 => split(alloc, r),
        9 => Ok(Request::MergeRegions {
            regions: list(alloc, r)?,
        }),
        10 => moved(alloc, r),
        _ => Err(EntryFault::Field(place)),
    }
}

#[tactic(auto, unfolding(crate::specs::Reading::request_at))]
pub(crate) fn request(alloc: Global, r: &mut Reader) -> Result<Request, EntryFault>
    ensures { Gives result (request_at r.old) r.new }
{
    let place = r.at();
    let kind = byte(r)?;
    request_behind(alloc, place, kind, r)
}
