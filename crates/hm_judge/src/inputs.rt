//! What the next call of a procedure's handler sees.
ghost use Rattle.std.specs.Prelude.{◌≡◌, ◌≢◌, ◌≤◌, IfOk, None};
ghost use Rattle.std.specs.Option.{option_copied};
ghost use Rattle.hm_data.specs.declared.step.Turn.TheVariants as turn_is;
ghost use Rattle.hm_model.specs.Answers.{report_of};
ghost use Rattle.hm_model.specs.Editions.{editions as editions_in, sheets_in};
ghost use Rattle.hm_model.specs.Evaluation.{CanRun};
ghost use Rattle.hm_model.specs.Inputs.{ends_of, place_if, regions_on as on_crashed, rows_read, sees_fenced as fenced_seen};
ghost use Rattle.hm_model.specs.Places.{on_server as regions_at};
ghost use Rattle.hm_model.specs.Tree.{node_of};
ghost use Rattle.hm_model.specs.Whereabouts.{crashed_in as crashed, moved_by as moved};
ghost use Rattle.hm_judge.specs.Inputs.{CanEvaluate, IsInput, seen_by as seen_of};

use crate::copies::{beside, copy_place, copy_server};
use crate::seen::{find, place_seen, sees_fenced};
use crate::turns::{latest_of, undoing};
use hm_data::{Args, CatKey, CatRow, Place, Record, StepIn, Told, Turn};
use hm_names::{Copied, List, Pid, RegionName, ServerName};
use hm_places::{OnServer, places_follow};
use hm_reads::laws::reads_tell;
use hm_reads::read;
use hm_records::Records;
use std::alloc::{AllocError, Global};

// How many regions a step sees at most.
const MOST_REGIONS: usize = 64;

// The rows that are read, what the children ended with, and the regions at the server.
type Lists = (List<(CatKey, CatRow)>, List<(Pid, Told)>, List<RegionName>);

// Copies of what the procedure works on, of the place of its region, and of the pick.
type Copies = (Args, Option<Place>, Option<ServerName>);

// The server that a crash is of.
fn crashed_in(args: &Args) -> Option<&ServerName>
    ensures { option_copied result ≡ crashed args.now }
{
    match args {
        Args::Crash { server } => Some(server),
        _ => None,
    }
}

// Copies of regions.
fn copies_of(alloc: Global, regions: OnServer<'_>) -> Result<List<RegionName>, AllocError>
    ensures { IfOk result (λ copies. copies ≡ regions.entry) }
{
    let mut copies = Vec::new(alloc);
    for region in regions {
        copies.push(region.copy(alloc)?)?;
    }
    Ok(List::of(copies))
}

// The first regions at a server.
fn on_server(
    alloc: Global,
    records: &Records,
    server: &ServerName,
) -> Result<List<RegionName>, AllocError>
    ensures { IfOk result (λ regions. regions ≡ regions_at records.now.past server.now) }
{
    places_follow();
    copies_of(alloc, records.places().on_server(server, MOST_REGIONS))
}

// The first regions at the server that a crash is of; none where the procedure is no crash.
fn regions_on(alloc: Global, records: &Records, args: &Args) -> Result<List<RegionName>, AllocError>
    ensures { IfOk result (λ regions. regions ≡ on_crashed records.now.past (crashed args.now)) }
{
    match crashed_in(args) {
        Some(server) => on_server(alloc, records, server),
        None => Ok(List::of(Vec::new(alloc))),
    }
}

// The rows of the catalog that a step reads.
fn rows_of(
    alloc: Global,
    records: &Records,
    args: &Args,
) -> Result<List<(CatKey, CatRow)>, AllocError>
    ensures { IfOk result (λ rows. rows ≡ rows_read records.now.past args.now) }
{
    reads_tell();
    read(alloc, records.catalog(), args)
}

// The lists that a step sees.
fn gather_lists(
    alloc: Global,
    records: &Records,
    pid: Pid,
    args: &Args,
) -> Result<Lists, AllocError>
    ensures { IfOk result (λ lists. (lists.0 ≡ rows_read records.now.past args.now) × (lists.1 ≡ ends_of records.now.past pid.0) × (lists.2 ≡ on_crashed records.now.past (crashed args.now))) }
{
    Ok((
        rows_of(alloc, records, args)?,
        records.procedures().ends(alloc, pid)?,
        regions_on(alloc, records, args)?,
    ))
}

// Its other parts that take memory.
fn gather_copies(
    alloc: Global,
    records: &Records,
    args: &Args,
    pick: Option<&ServerName>,
) -> Result<Copies, AllocError>
    ensures { IfOk result (λ copies. (copies.0 ≡ args.now) × (copies.1 ≡ place_if records.now.past (moved args.now)) × (copies.2 ≡ option_copied pick.entry)) }
{
    Ok((
        args.copy(alloc)?,
        copy_place(alloc, place_seen(records, args))?,
        copy_server(alloc, pick)?,
    ))
}

// What a step sees, by what took memory.
fn seen(records: &Records, pid: Pid, found: &Record, lists: Lists, copies: Copies) -> StepIn
    ensures { result ≡ record { pid = pid; root = found.now.root; kind = found.now.kind; edition = found.now.edition; row = found.now.row; args = copies.0; tries = found.now.tries; rows = lists.0; ends = lists.1; report = report_of records.now.past pid.0; place = copies.1; fenced = fenced_seen records.now.past found.now.args; on_server = lists.2; pick = copies.2; aborted = found.now.aborted; turn = turn_is.Step } }
{
    let (rows, ends, on_server) = lists;
    let (args, place, pick) = copies;
    StepIn {
        pid,
        root: found.root,
        kind: found.kind,
        edition: found.edition,
        row: found.row,
        args,
        tries: found.tries,
        rows,
        ends,
        report: records.procedures().report(pid),
        place,
        fenced: sees_fenced(records, &found.args),
        on_server,
        pick,
        aborted: found.aborted,
        turn: Turn::Step,
    }
}

// What a step of a procedure sees.
fn seen_by(
    alloc: Global,
    records: &Records,
    pid: Pid,
    found: &Record,
    pick: Option<&ServerName>,
) -> Result<StepIn, AllocError>
    ensures { IfOk result (λ at. at ≡ seen_of records.now.past pid found.now (option_copied pick.entry)) }
{
    let lists = gather_lists(alloc, records, pid, &found.args)?;
    let copies = gather_copies(alloc, records, &found.args, pick);
    let (copies, lists) = beside(copies, lists)?;
    Ok(seen(records, pid, found, lists, copies))
}

/// What the next call of a procedure's handler sees: a step of its own, or of a failed root whose descendants have ended the
/// latest step that can be undone. It goes over no more than what it gathers.
pub fn step_in(
    alloc: Global,
    records: &Records,
    pid: Pid,
    pick: Option<&ServerName>,
) -> Result<StepIn, AllocError>
    requires { node_of records.now.past pid.0 ≢ None }
    ensures input { IfOk result (IsInput records.now.past pid.0 (option_copied pick.entry)) }
    ensures runs { IfOk result (λ at. CanEvaluate records.now.past pid.0 (option_copied pick.entry) → CanRun (sheets_in records.now.past at.edition) at) }
    ensures edition { IfOk result (λ at. at.edition ≤ editions_in records.now.past) }
{
    let Some(found) = find(records, pid) else {
        unreachable!()
    };
    records.procedures_name_regions();
    let at = seen_by(alloc, records, pid, found, pick)?;
    if !records.procedures().undoes(pid) {
        return Ok(at);
    }
    let (latest, at) = beside(latest_of(alloc, records, pid), at)?;
    Ok(undoing(at, latest))
}
