//! Which server is picked for a step.
ghost use Rattle.std.specs.Prelude.{◌≡◌, None, Some, option_copied};
ghost use Rattle.hm_model.specs.Tree.{Node, node_of};
ghost use Rattle.hm_model.specs.Wanted.{wanted_of as wanted};
ghost use Rattle.hm_model.specs.Choice.{candidate as picked, failed_at as failed, least_loaded as least, place_told, wanted_first as first_wanted};

use crate::picks::{needs_server, wanted_of};
use crate::seen::{find, place_seen};
use crate::servers::{is_live, standings};
use hm_data::{Args, Record, RegionState};
use hm_names::{Pid, ServerName};
use hm_records::Records;

// The server at which the region that a procedure moves just failed to open.
fn failed_at<'a>(records: &'a Records, args: &Args) -> Option<&'a ServerName>
    ensures { option_copied result ≡ failed (place_told records.now.past args.now) }
{
    match place_seen(records, args) {
        Some(place) if place.state == RegionState::FailedOpen => place.server.as_ref(),
        _ => None,
    }
}

// The server that is wanted, on the first try, where that one is live.
fn wanted_first<'a>(records: &Records, found: &'a Record) -> Option<&'a ServerName>
    ensures { option_copied result ≡ first_wanted records.now.past (wanted found.now.args) found.now.tries }
{
    match wanted_of(&found.args) {
        Some(server) if found.tries == 0 && is_live(records, server) => Some(server),
        _ => None,
    }
}

// The live server with the lowest load; one that is to be avoided only where no other is live.
fn least_loaded<'a>(records: &'a Records, avoid: Option<&ServerName>) -> Option<&'a ServerName>
    ensures { option_copied result ≡ least records.now.past (option_copied avoid.entry) }
{
    standings(records).pick(records.places(), avoid)
}

/// The server that is picked for the next step of a procedure, where that needs one: the wanted one on the first try, else the
/// least loaded, avoiding the one at which its region just failed to open.
pub fn candidate(records: &Records, pid: Pid) -> Option<&ServerName>
    ensures pick { (node : Node) → node_of records.now.past pid.0 ≡ Some node → option_copied result ≡ picked records.now.past pid.0 node }
    ensures nobody { node_of records.now.past pid.0 ≡ None → option_copied result ≡ None }
{
    let found = find(records, pid)?;
    if !needs_server(records, pid, found) {
        return None;
    }
    let failed = failed_at(records, &found.args);
    match wanted_first(records, found) {
        Some(server) => Some(server),
        None => least_loaded(records, failed),
    }
}
