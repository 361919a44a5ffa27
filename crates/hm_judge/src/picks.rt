//! Which server may be picked for a step.
ghost use Rattle.std.specs.Prelude.{◌≡◌, ◌≤◌, ◌↔◌, ◌&&◌, not, option_copied, IsTrue, Some};
ghost use Rattle.hm_catalog.specs.Kept.{key_of};
ghost use Rattle.hm_model.specs.Catalog.{cat};
ghost use Rattle.hm_model.specs.Choice.{place_told};
ghost use Rattle.hm_model.specs.Editions.{editions as editions_in};
ghost use Rattle.hm_model.specs.Evaluation.{is_picking};
ghost use Rattle.hm_model.specs.Picks.{has_pick as pick_there, is_another as another, is_as_wanted as as_wanted, needs_server as needs, PicksRight};
ghost use Rattle.hm_model.specs.Places.{is_the_server as the_server};
ghost use Rattle.hm_model.specs.Records.{record_at};
ghost use Rattle.hm_model.specs.TransitActs.{is_open as opened};
ghost use Rattle.hm_model.specs.Tree.{Node, node_of};
ghost use Rattle.hm_model.specs.Inputs.{sees_fenced as fenced_seen};
ghost use Rattle.hm_model.specs.Wanted.{wanted_by_request as requested, wanted_of as wanted};
ghost use Rattle.hm_judge.specs.Picks.{can_open, fits_record, read_by as region_read, wants};

use crate::seen::{find, moved_by, next_row, place_seen, sees_fenced};
use crate::servers::{has_live, has_other_live, is_live, is_one};
use hm_catalog::Name;
use hm_catalog::laws::rows_tell;
use hm_data::{Act, Args, CatRow, Record, RegionState, Request, Row, TableState};
use hm_names::{Pid, RegionName, ServerName};
use hm_records::Records;
use hm_views::checks::{is_in_state, is_live as is_live_status, status_in, table_state_in};
use hm_views::places::is_open as is_open_there;

// The region of a procedure whose steps read the region's row and its table's.
fn read_by(args: &Args) -> Option<&RegionName>
    ensures { option_copied result ≡ region_read args.now }
{
    match args {
        Args::Root {
            request: Request::SplitRegion { region, key: _ },
            first: _,
        } => Some(region),
        _ => moved_by(args),
    }
}

// The row of a key of the catalog.
fn row<'a>(records: &'a Records, name: &Name) -> Option<&'a CatRow>
    ensures { option_copied result ≡ cat records.now.past (key_of name.now) }
{
    rows_tell();
    records.catalog().get(name)
}

// Whether a region may be opened: it is live, and its table is enabled or being enabled.
fn may_open(records: &Records, region: &RegionName) -> bool
    ensures { result ≡ can_open records.now.past region.now }
{
    let state = table_state_in(row(records, &Name::Table(&region.table)));
    is_live_status(status_in(row(records, &Name::Region(region))))
        && (is_in_state(TableState::Enabled, state) || is_in_state(TableState::Enabling, state))
}

// Whether the region that a procedure moves is open, at a server that isn't fenced.
fn is_open(records: &Records, args: &Args) -> bool
    ensures { result ≡ opened (place_told records.now.past args.now) (fenced_seen records.now.past args.now) }
{
    match place_seen(records, args) {
        Some(place) => is_open_there(place, sees_fenced(records, args)),
        None => false,
    }
}

// Whether the region of a procedure is to be placed at a server.
fn wants_server(records: &Records, args: &Args) -> bool
    ensures { result ≡ wants records.now.past args.now }
{
    match read_by(args) {
        Some(region) => may_open(records, region) && !is_open(records, args),
        None => false,
    }
}

// Whether a step of the row places a region, where the procedure was aborted or not.
fn places(row: Row, aborted: bool) -> bool
    ensures { result ≡ (is_picking row.act && not (aborted && not row.after)) }
{
    row.act == Act::GetAssignCandidate && (!aborted || row.after)
}

/// Whether the next step of a procedure needs a server to be picked.
pub(crate) fn needs_server(records: &Records, pid: Pid, found: &Record) -> bool
    requires edition { found.now.edition ≤ editions_in records.now.past }
    ensures { (node : Node) → node_of records.now.past pid.0 ≡ Some node → found.now ≡ record_at records.now.past pid.0 node → result ≡ needs records.now.past pid.0 node }
{
    if records.procedures().undoes(pid) {
        return false;
    }
    match next_row(records, found) {
        Some(row) => places(row, found.aborted) && wants_server(records, &found.args),
        None => false,
    }
}

/// Whether the next step of a procedure needs no server to be picked, or one is live.
pub fn has_pick(records: &Records, pid: Pid) -> bool
    ensures { (node : Node) → node_of records.now.past pid.0 ≡ Some node → result ≡ pick_there records.now.past pid.0 node }
{
    let Some(found) = find(records, pid) else {
        return false;
    };
    !needs_server(records, pid, found) || has_live(records)
}

/// The server that a procedure is to bring its region to, where one is named.
pub(crate) fn wanted_of(args: &Args) -> Option<&ServerName>
    ensures { option_copied result ≡ wanted args.now }
{
    match args {
        Args::Root {
            request: Request::Move { region: _, to },
            first: _,
        } => to.as_ref(),
        Args::Transit {
            region: _,
            goal: _,
            to,
        } => to.as_ref(),
        _ => None,
    }
}

// Whether the first try goes to the server that is wanted, where that one is live.
fn is_as_wanted(records: &Records, found: &Record, server: &ServerName) -> bool
    ensures { result ≡ as_wanted records.now.past (wanted found.now.args) found.now.tries server.now }
{
    match wanted_of(&found.args) {
        Some(wanted) => found.tries != 0 || !is_live(records, wanted) || is_one(server, wanted),
        None => true,
    }
}

// Whether it is the server, if there is one.
fn is_the_server(server: &ServerName, other: &Option<ServerName>) -> bool
    ensures { result ≡ the_server server.now other.now }
{
    match other {
        Some(other) => is_one(server, other),
        None => false,
    }
}

// Whether it isn't the server at which the region just failed to open, where another one is live.
fn is_another(records: &Records, args: &Args, server: &ServerName) -> bool
    ensures { result ≡ another records.now.past (place_told records.now.past args.now) server.now }
{
    match place_seen(records, args) {
        Some(place) => {
            place.state != RegionState::FailedOpen
                || !is_the_server(server, &place.server)
                || !has_other_live(records, server)
        }
        None => true,
    }
}

// Whether a server fits as the pick of a procedure.
fn fits(records: &Records, found: &Record, server: &ServerName) -> bool
    ensures { result ≡ fits_record records.now.past found.now server.now }
{
    is_live(records, server)
        && is_as_wanted(records, found, server)
        && is_another(records, &found.args, server)
}

/// Whether a server is picked exactly where the next step of the procedure needs one, and fits.
pub fn picks_right(records: &Records, pid: Pid, pick: &Option<ServerName>) -> bool
    ensures { IsTrue result ↔ PicksRight records.now.past pid.0 pick.now }
{
    let Some(found) = find(records, pid) else {
        return false;
    };
    let needed = needs_server(records, pid, found);
    match pick {
        Some(server) => needed && fits(records, found, server),
        None => !needed,
    }
}
