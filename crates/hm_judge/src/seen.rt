//! What a step sees of its procedure, of its region's place and of servers.
ghost use Rattle.std.specs.Prelude.{◌≡◌, ◌≤◌, option_copied, slice_get, IfSome};
ghost use Rattle.hm_model.specs.Editions.{editions as editions_in, sheets_in};
ghost use Rattle.hm_model.specs.Inputs.{fenced_if, place_if, sees_fenced as fenced_seen, server_at as at};
ghost use Rattle.hm_model.specs.Places.{place_of as place};
ghost use Rattle.hm_model.specs.Records.{record_of};
ghost use Rattle.hm_model.specs.Rules.{IsLegal};
ghost use Rattle.hm_model.specs.Sheets.{row_in, sheet_for as sheet_of_kind};
ghost use Rattle.hm_model.specs.Tree.{is_root as root, pid_of, root_of as root_in};
ghost use Rattle.hm_model.specs.Whereabouts.{called_by as called, moved_by as moved};

use crate::servers::is_fenced;
use hm_data::{Args, Place, Record, Request, Row};
use hm_names::{Pid, RegionName, ServerName};
use hm_places::places_follow;
use hm_records::Records;
use hm_sheet::sheet_for;

/// A procedure as it stands, in one of the journal's editions.
pub(crate) fn find(records: &Records, pid: Pid) -> Option<&Record>
    ensures found { option_copied result ≡ record_of records.now.past pid.0 }
    ensures edition { IfSome result (λ found. found.now.edition ≤ editions_in records.now.past) }
    ensures legal { IsLegal records.now.past }
{
    records.procedures().find(pid)
}

/// Whether it is the number of a root.
pub(crate) fn is_root(records: &Records, pid: Pid) -> bool
    ensures { result ≡ root records.now.past pid.0 }
{
    match find(records, pid) {
        Some(found) => found.parent.is_none(),
        None => false,
    }
}

/// The root of a procedure, 0 where there is none.
pub(crate) fn root_of(records: &Records, pid: Pid) -> Pid
    ensures { result ≡ pid_of (root_in records.now.past pid.0) }
{
    match find(records, pid) {
        Some(found) => found.root,
        None => Pid(0),
    }
}

/// The row that a procedure runs next, by the sheets of its edition.
pub(crate) fn next_row(records: &Records, found: &Record) -> Option<Row>
    requires edition { found.now.edition ≤ editions_in records.now.past }
    ensures { result ≡ row_in (sheet_of_kind (sheets_in records.now.past found.now.edition) found.now.kind) found.now.row }
{
    let valid = sheet_for(records.sheets_of(found.edition), found.kind)?;
    row_at(valid.sheet().rows.as_slice(), found.row)
}

// The row at a place.
fn row_at(rows: &[Row], place: u8) -> Option<Row>
    ensures { result ≡ slice_get rows.now place }
{
    rows.get(usize::from(place)).copied()
}

/// The region that a procedure moves.
pub(crate) fn moved_by(args: &Args) -> Option<&RegionName>
    ensures { option_copied result ≡ moved args.now }
{
    match args {
        Args::Root {
            request: Request::Move { region, to: _ },
            first: _,
        } => Some(region),
        Args::Transit {
            region,
            goal: _,
            to: _,
        } => Some(region),
        _ => None,
    }
}

/// The server that a call about a region goes to.
pub fn called_by(args: &Args) -> Option<&ServerName>
    ensures { option_copied result ≡ called args.now }
{
    match args {
        Args::AssignCall { region: _, server } => Some(server),
        Args::CloseCall { region: _, server } => Some(server),
        _ => None,
    }
}

// The place of a region.
fn place_of<'a>(records: &'a Records, region: &RegionName) -> &'a Place
    ensures { result.now ≡ place records.now.past region.now }
{
    places_follow();
    records.places().of(region)
}

/// The place of the region that a procedure moves.
pub(crate) fn place_seen<'a>(records: &'a Records, args: &Args) -> Option<&'a Place>
    ensures { option_copied result ≡ place_if records.now.past (moved args.now) }
{
    match moved_by(args) {
        Some(region) => Some(place_of(records, region)),
        None => None,
    }
}

// The server of a place, where both are there.
fn server_at(place: Option<&Place>) -> Option<&ServerName>
    ensures { option_copied result ≡ at (option_copied place.entry) }
{
    match place {
        Some(place) => place.server.as_ref(),
        None => None,
    }
}

// Whether a server, where there is one, is fenced.
fn is_fenced_if(records: &Records, server: Option<&ServerName>) -> bool
    ensures { result ≡ fenced_if records.now.past (option_copied server.entry) }
{
    match server {
        Some(server) => is_fenced(records, server),
        None => false,
    }
}

/// Whether the server that is called about a region is fenced.
pub(crate) fn calls_fenced(records: &Records, args: &Args) -> bool
    ensures { result ≡ fenced_if records.now.past (called args.now) }
{
    is_fenced_if(records, called_by(args))
}

/// Whether the server that a procedure has to do with is fenced: that of its region's place, or the one that is called.
pub(crate) fn sees_fenced(records: &Records, args: &Args) -> bool
    ensures { result ≡ fenced_seen records.now.past args.now }
{
    is_fenced_if(records, server_at(place_seen(records, args))) || calls_fenced(records, args)
}
