//! Whether the parts before a part have what it needs.
ghost use Rattle.std.specs.Prelude.{◌≡◌, ◌↔◌, ◌≤◌, IsTrue, false};
ghost use Rattle.hm_model.specs.Base.{RangeFits};
ghost use Rattle.hm_model.specs.Catalog.{cat};
ghost use Rattle.hm_model.specs.Fleet.{has_newer, has_older_live};
ghost use Rattle.hm_model.specs.Standings.{standings_of};
ghost use Rattle.hm_ranges.specs.Laws.{AreLiveOf};
ghost use Rattle.hm_places.specs.Laws.{StandingsTell};
ghost use Rattle.hm_base.specs.Fits.{NumbersFit, PidFits, RegionFits, RootFits, RowFits, Suits};
ghost use Rattle.hm_base.specs.Live.{AreLiveBy};

use crate::live::fits_live;
use crate::roots::may_root;
use crate::rows::{home_fits, row_fits};
use hm_catalog::laws::rows_tell;
use hm_data::{Args, Part, Place, Status, TableState};
use hm_names::{KeyRange, List, Nonce, Pid, RegionName, ServerName, TableName};
use hm_places::{Servers, servers_follow};
use hm_ranges::{Ranges, ranges_tell};
use hm_records::Records;

// The greatest number of region ids that may be drawn for a table.
const MOST_IDS: u64 = 4096;

// The greatest number of parents that a region may have.
const MOST_PARENTS: usize = 10;

// Whether a table may have had so many region ids drawn, and have its row.
fn table_fits(
    records: &Records,
    table: &TableName,
    drawn: u64,
    row: &Option<(TableState, u64)>,
) -> bool
    ensures { IsTrue result ↔ ((drawn ≤ 4096) × RowFits (cat records.now.past) table.now row.now) }
{
    rows_tell();
    drawn <= MOST_IDS && row_fits(records.catalog(), table, row)
}

// Whether a region's id was drawn, and its parents are few.
fn numbers_fit(records: &Records, region: &RegionName, parents: &[u64]) -> bool
    ensures { IsTrue result ↔ NumbersFit records.now.past region.now parents.now }
{
    1 <= region.id && region.id <= records.drawn(&region.table) && parents.len() <= MOST_PARENTS
}

// Whether a region has what it needs but its range.
fn region_fits(
    records: &Records,
    region: &RegionName,
    status: Status,
    parents: &List<u64>,
    place: &Place,
) -> bool
    ensures { IsTrue result ↔ RegionFits records.now.past region.now status parents.now place.now }
{
    rows_tell();
    numbers_fit(records, region, parents.as_slice())
        && home_fits(records.catalog(), region, status, place)
}

// Whether a region may have its range, by those of the live regions of its table.
fn range_fits(
    records: &Records,
    ranges: &Ranges,
    region: &RegionName,
    range: &KeyRange,
    status: Status,
) -> bool
    requires { AreLiveOf (cat records.now.past) region.now.table ranges.now.ranges }
    ensures { IsTrue result ↔ RangeFits records.now.past region.now range.now status }
{
    ranges_tell();
    let _records = records;
    let _region = region;
    fits_live(ranges, range, status)
}

// The servers, which tell what the parts say of them.
fn standings(records: &Records) -> &Servers
    ensures are { result.now.servers ≡ standings_of records.now.past }
    ensures tell { StandingsTell records.now.past }
{
    servers_follow();
    let _legal = records.procedures();
    records.servers()
}

// Whether no server of the host and port of a server has its start code or a greater one, and no older one is live.
fn server_fits(records: &Records, server: &ServerName) -> bool
    ensures { IsTrue result ↔ ((has_newer records.now.past server.now ≡ false) × (has_older_live records.now.past server.now ≡ false)) }
{
    let servers = standings(records);
    !servers.has_newer(server) && !servers.has_older_live(server)
}

// Whether the number of a root was given before.
fn pid_fits(records: &Records, pid: Pid) -> bool
    ensures { IsTrue result ↔ PidFits records.now.past pid }
{
    1 <= pid.0 && pid.0 <= records.procedures().last_pid()
}

// Whether a root has what it needs.
fn root_fits(records: &Records, pid: Pid, nonce: &Nonce, args: &Args) -> bool
    ensures { IsTrue result ↔ RootFits records.now.past pid nonce.now args.now }
{
    pid_fits(records, pid) && records.by_nonce(nonce).is_none() && may_root(args)
}

// Whether a part has what it needs but to come after the last.
pub(crate) fn suits(records: &Records, ranges: &Ranges, part: &Part) -> bool
    requires { AreLiveBy records.now.past part.now ranges.now.ranges }
    ensures { IsTrue result ↔ Suits records.now.past part.now }
{
    match part {
        Part::Head { .. } => false,
        Part::Namespace { ns: _ } => true,
        Part::Table { table, drawn, row } => table_fits(records, table, *drawn, row),
        Part::Region {
            region,
            range,
            status,
            parents,
            place,
        } => region_fits(records, region, *status, parents, place)
            && range_fits(records, ranges, region, range, *status),
        Part::Server { server, fenced: _ } => server_fits(records, server),
        Part::Root {
            pid,
            nonce,
            args,
            cause: _,
        } => root_fits(records, *pid, nonce, args),
        Part::Layout { pid } => pid_fits(records, *pid),
    }
}
