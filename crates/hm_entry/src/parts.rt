ghost use Rattle.hm_data.specs.declared.args.Args.TheVariants as args_are;
ghost use Rattle.hm_data.specs.declared.part.Part.TheVariants as part_is;
ghost use Rattle.hm_entry.specs.Reading.{Gives, of_one, of_two, of_three, of_four, of_five};
ghost use Rattle.hm_entry.specs.Reading.{list_at, option_at, flag_at, u64_at, pid_at, sheet_at, table_at, region_at, server_at, range_at, status_at, place_at, nonce_at, cause_at, goal_at};
ghost use Rattle.hm_entry.specs.Reading.{request_of, root_args_at, root_args_of, table_row_at, part_at, part_of};

use crate::codes::{cause, goal, status, table_state};
use crate::fault::EntryFault;
use crate::fields::{byte, flag, u64};
use crate::get::{Get, list, option};
use crate::names::{nonce, ns, pid, range, region, server, table};
use crate::requests::request_behind;
use crate::steps::args_behind;
use hm_data::{Args, Cause, Part, Place, Status, TableState};
use hm_names::{KeyRange, List, Nonce, Pid, RegionName};
use hm_wire::Reader;
use std::alloc::Global;

impl Get for (TableState, u64) {
    ghost read = { table_row_at };

    #[tactic(auto, unfolding(crate::specs::Reading::table_row_at))]
    fn get(_alloc: Global, r: &mut Reader) -> Result<(TableState, u64), EntryFault> {
        let state = table_state(r)?;
        let version = u64(r)?;
        Ok((state, version))
    }
}

impl Get for Cause {
    ghost read = { cause_at };

    fn get(_alloc: Global, r: &mut Reader) -> Result<Cause, EntryFault> {
        cause(r)
    }
}

// The fields of a transit that no request made.
fn transit(alloc: Global, r: &mut Reader) -> Result<Args, EntryFault>
    ensures { Gives result (of_three args_are.Transit region_at goal_at (option_at server_at) r.old) r.new }
{
    Ok(Args::Transit {
        region: region(alloc, r)?,
        goal: goal(r)?,
        to: option(alloc, r)?,
    })
}

// The fields of a request of this kind, which stood at the place, and its first id.
fn asked(alloc: Global, place: u64, kind: u8, r: &mut Reader) -> Result<Args, EntryFault>
    ensures { Gives result (of_two args_are.Root (request_of place kind) u64_at r.old) r.new }
{
    let request = request_behind(alloc, place, kind, r)?;
    match u64(r) {
        Ok(first) => Ok(Args::Root { request, first }),
        Err(fault) => {
            drop(request);
            Err(fault)
        }
    }
}

// What a root of a base did, of this kind, which stood at the place.
#[tactic(auto, unfolding(crate::specs::Reading::root_args_of))]
fn root_args_behind(alloc: Global, place: u64, kind: u8, r: &mut Reader) -> Result<Args, EntryFault>
    ensures { Gives result (root_args_of place kind r.old) r.new }
{
    if kind == 255 {
        return transit(alloc, r);
    }
    if kind < 11 {
        return asked(alloc, place, kind, r);
    }
    args_behind(alloc, place, kind, r)
}

#[tactic(auto, unfolding(crate::specs::Reading::root_args_at))]
fn root_args(alloc: Global, r: &mut Reader) -> Result<Args, EntryFault>
    ensures { Gives result (root_args_at r.old) r.new }
{
    let place = r.at();
    let kind = byte(r)?;
    root_args_behind(alloc, place, kind, r)
}

// The fields of a head behind the two numbers that come first.
fn head_behind(alloc: Global, entries: u64, last: Pid, r: &mut Reader) -> Result<Part, EntryFault>
    ensures { Gives result (of_two (part_is.Head entries last) u64_at (list_at sheet_at) r.old) r.new }
{
    let parts = u64(r)?;
    let sheets = list(alloc, r)?;
    Ok(Part::Head {
        entries,
        last,
        parts,
        sheets,
    })
}

// The fields of a head.
fn head_part(alloc: Global, r: &mut Reader) -> Result<Part, EntryFault>
    ensures { Gives result (of_four part_is.Head u64_at pid_at u64_at (list_at sheet_at) r.old) r.new }
{
    let entries = u64(r)?;
    let last = pid(r)?;
    head_behind(alloc, entries, last, r)
}

// The fields of a table's part.
fn table_part(alloc: Global, r: &mut Reader) -> Result<Part, EntryFault>
    ensures { Gives result (of_three part_is.Table table_at u64_at (option_at table_row_at) r.old) r.new }
{
    Ok(Part::Table {
        table: table(alloc, r)?,
        drawn: u64(r)?,
        row: option(alloc, r)?,
    })
}

// The place of a region, behind the other fields of its part.
fn region_at_place(
    alloc: Global,
    bounds: (RegionName, KeyRange),
    kin: (Status, List<u64>),
    r: &mut Reader,
) -> Result<Part, EntryFault>
    ensures { Gives result (of_one (part_is.Region bounds.0 bounds.1 kin.0 kin.1) place_at r.old) r.new }
{
    let place = Place::get(alloc, r)?;
    Ok(Part::Region {
        region: bounds.0,
        range: bounds.1,
        status: kin.0,
        parents: kin.1,
        place,
    })
}

// The fields of a region's part behind its name and its range.
fn region_behind(
    alloc: Global,
    bounds: (RegionName, KeyRange),
    r: &mut Reader,
) -> Result<Part, EntryFault>
    ensures { Gives result (of_three (part_is.Region bounds.0 bounds.1) status_at (list_at u64_at) place_at r.old) r.new }
{
    let status = status(r)?;
    let parents = list(alloc, r)?;
    region_at_place(alloc, bounds, (status, parents), r)
}

// The fields of a region's part.
fn region_part(alloc: Global, r: &mut Reader) -> Result<Part, EntryFault>
    ensures { Gives result (of_five part_is.Region region_at range_at status_at (list_at u64_at) place_at r.old) r.new }
{
    let region = region(alloc, r)?;
    let range = range(alloc, r)?;
    region_behind(alloc, (region, range), r)
}

// The fields of a server's part.
fn server_part(alloc: Global, r: &mut Reader) -> Result<Part, EntryFault>
    ensures { Gives result (of_two part_is.Server server_at flag_at r.old) r.new }
{
    Ok(Part::Server {
        server: server(alloc, r)?,
        fenced: flag(r)?,
    })
}

// What a root did, and why it failed.
fn root_behind(alloc: Global, pid: Pid, nonce: Nonce, r: &mut Reader) -> Result<Part, EntryFault>
    ensures { Gives result (of_two (part_is.Root pid nonce) root_args_at (option_at cause_at) r.old) r.new }
{
    let args = root_args(alloc, r)?;
    match option(alloc, r) {
        Ok(cause) => Ok(Part::Root {
            pid,
            nonce,
            args,
            cause,
        }),
        Err(fault) => {
            drop(args);
            Err(fault)
        }
    }
}

// The fields of a root's part.
fn root_part(alloc: Global, r: &mut Reader) -> Result<Part, EntryFault>
    ensures { Gives result (of_four part_is.Root pid_at nonce_at root_args_at (option_at cause_at) r.old) r.new }
{
    let pid = pid(r)?;
    let nonce = nonce(r)?;
    root_behind(alloc, pid, nonce, r)
}

// A part of this sort, which stood at the place.
#[tactic(auto, unfolding(crate::specs::Reading::part_of))]
fn part_behind(alloc: Global, place: u64, sort: u8, r: &mut Reader) -> Result<Part, EntryFault>
    ensures { Gives result (part_of place sort r.old) r.new }
{
    match sort {
        0 => head_part(alloc, r),
        1 => Ok(Part::Namespace { ns: ns(alloc, r)? }),
        2 => table_part(alloc, r),
        3 => region_part(alloc, r),
        4 => server_part(alloc, r),
        5 => root_part(alloc, r),
        6 => Ok(Part::Layout { pid: pid(r)? }),
        _ => Err(EntryFault::Field(place)),
    }
}

#[tactic(auto, unfolding(crate::specs::Reading::part_at))]
pub(crate) fn part(alloc: Global, r: &mut Reader) -> Result<Part, EntryFault>
    ensures { Gives result (part_at r.old) r.new }
{
    let place = r.at();
    let sort = byte(r)?;
    part_behind(alloc, place, sort, r)
}
