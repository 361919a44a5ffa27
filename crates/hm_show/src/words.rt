//! The words of the printed tables.
ghost use Rattle.std.specs.Prelude.{◌≡◌};
ghost use Rattle.hm_show.specs.Words.{cause_in, cause_text, kind_text, mode_text, place_text, request_kind_text, standing_text, state_text, status_text};

use hm_data::{Args, Cause, Phase, RegionState, Request, Status};
use hm_names::{RegionName, ServerName};
use std::fmt;

/// Why a procedure failed.
pub fn cause_name(cause: Cause) -> &'static str
    ensures { result.now ≡ cause_text cause }
{
    match cause {
        Cause::NsExists => "NsExists",
        Cause::NsMissing => "NsMissing",
        Cause::NsNotEmpty => "NsNotEmpty",
        Cause::TableExists => "TableExists",
        Cause::TableMissing => "TableMissing",
        Cause::NotDisabled => "NotDisabled",
        Cause::NotEnabled => "NotEnabled",
        Cause::RegionMissing => "RegionMissing",
        Cause::RegionNotLive => "RegionNotLive",
        Cause::KeyOutside => "KeyOutside",
        Cause::NotAdjacent => "NotAdjacent",
        Cause::LayoutRefused => "LayoutRefused",
        Cause::Aborted => "Aborted",
    }
}

/// The state of a procedure. The words don't tell for whom it waits.
pub fn state_name(phase: Phase) -> &'static str
    ensures { result.now ≡ state_text phase }
{
    match phase {
        Phase::Runnable => "RUNNABLE",
        Phase::Waiting | Phase::Awaiting => "WAITING",
        Phase::Failed(_) => "FAILED",
        Phase::RolledBack(_) => "ROLLEDBACK",
        Phase::Success => "SUCCESS",
    }
}

/// The cause that a state tells.
pub fn cause_of(phase: Phase) -> Option<Cause>
    ensures { result ≡ cause_in phase }
{
    match phase {
        Phase::Failed(cause) | Phase::RolledBack(cause) => Some(cause),
        Phase::Runnable | Phase::Waiting | Phase::Awaiting | Phase::Success => None,
    }
}

// The kind of a request's procedure.
fn request_kind_name(request: &Request) -> &'static str
    ensures { result.now ≡ request_kind_text request.now }
{
    match request {
        Request::CreateNamespace { ns: _ } => "CreateNamespace",
        Request::DropNamespace { ns: _ } => "DropNamespace",
        Request::CreateTable { table: _, keys: _ } => "CreateTable",
        Request::DeleteTable { table: _ } => "DeleteTable",
        Request::EnableTable { table: _ } => "EnableTable",
        Request::DisableTable { table: _ } => "DisableTable",
        Request::ModifyTable {
            table: _,
            version: _,
        } => "ModifyTable",
        Request::SplitRegion { region: _, key: _ } => "SplitRegion",
        Request::MergeRegions { regions: _ } => "MergeRegions",
        Request::Move { region: _, to: _ } => "Transit",
    }
}

/// The kind of a procedure that works on this.
pub fn kind_name(args: &Args) -> &'static str
    ensures { result.now ≡ kind_text args.now }
{
    match args {
        Args::Root { request, first: _ } => request_kind_name(request),
        Args::Transit {
            region: _,
            goal: _,
            to: _,
        } => "Transit",
        Args::Crash { server: _ } => "ServerCrash",
        Args::AddRegions {
            table: _,
            first: _,
            bounds: _,
        } => "AddRegions",
        Args::DropRegions { table: _, ids: _ } => "DropRegions",
        Args::AssignCall {
            region: _,
            server: _,
        } => "AssignCall",
        Args::CloseCall {
            region: _,
            server: _,
        } => "CloseCall",
        Args::FenceCall { server: _ } => "FenceCall",
        Args::LayoutCall { root: _ } => "LayoutCall",
        Args::SweepLayout { root: _ } => "SweepLayout",
    }
}

/// What became of a region.
pub fn status_name(status: Status) -> &'static str
    ensures { result.now ≡ status_text status }
{
    match status {
        Status::Live => "Live",
        Status::Split => "Split",
        Status::Merged => "Merged",
    }
}

/// How far a region is open.
pub fn place_name(state: RegionState) -> &'static str
    ensures { result.now ≡ place_text state }
{
    match state {
        RegionState::Offline => "OFFLINE",
        RegionState::Opening => "OPENING",
        RegionState::Opened => "OPEN",
        RegionState::Closing => "CLOSING",
        RegionState::Closed => "CLOSED",
        RegionState::FailedOpen => "FAILED_OPEN",
        RegionState::AbnormallyClosed => "ABNORMALLY_CLOSED",
    }
}

/// How a server stands that is live or not, and fenced or not.
pub fn standing_name(live: bool, fenced: bool) -> &'static str
    ensures { result.now ≡ standing_text live fenced }
{
    match (live, fenced) {
        (_, true) => "fenced",
        (true, false) => "live",
        (false, false) => "down",
    }
}

/// Whether a lock is exclusive.
pub fn mode_name(exclusive: bool) -> &'static str
    ensures { result.now ≡ mode_text exclusive }
{
    if exclusive { "X" } else { "S" }
}

// The first of some regions.
#[derive(Drop)]
struct First<'a>(&'a [RegionName]);

impl<'a> fmt::Display for First<'a> {
    ghost use Rattle.std.specs.Prelude.{Some};
    ghost use Rattle.hm_show.specs.Words.{first_text};

    ghost output = { λ s. Some (first_text s.0.now) };

    fn fmt<W: fmt::Write>(&self, f: &mut fmt::Formatter<W>) -> fmt::Result {
        match self.0 {
            [] => Ok(()),
            [region, ..] => write!(f, "{region}"),
        }
    }
}

// What a request is about.
#[derive(Drop)]
struct RequestSubject<'a>(&'a Request);

impl<'a> fmt::Display for RequestSubject<'a> {
    ghost use Rattle.std.specs.Prelude.{Some};
    ghost use Rattle.hm_show.specs.Words.{request_subject_text};

    ghost output = { λ s. Some (request_subject_text s.0.now) };

    fn fmt<W: fmt::Write>(&self, f: &mut fmt::Formatter<W>) -> fmt::Result {
        match self.0 {
            Request::CreateNamespace { ns } | Request::DropNamespace { ns } => write!(f, "{ns}"),
            Request::CreateTable { table, keys: _ }
            | Request::DeleteTable { table }
            | Request::EnableTable { table }
            | Request::DisableTable { table }
            | Request::ModifyTable { table, version: _ } => write!(f, "{table}"),
            Request::SplitRegion { region, key: _ } | Request::Move { region, to: _ } => {
                write!(f, "{region}")
            }
            Request::MergeRegions { regions } => {
                let first = First(regions.as_slice());
                write!(f, "{first}")
            }
        }
    }
}

/// What a procedure is about that works on this: a namespace, table, region or server, or the root of a layout.
#[derive(Drop)]
pub struct Subject<'a>(pub &'a Args);

impl<'a> fmt::Display for Subject<'a> {
    ghost use Rattle.std.specs.Prelude.{Some};
    ghost use Rattle.hm_show.specs.Words.{subject_text};

    ghost output = { λ s. Some (subject_text s.0.now) };

    fn fmt<W: fmt::Write>(&self, f: &mut fmt::Formatter<W>) -> fmt::Result {
        match self.0 {
            Args::Root { request, first: _ } => {
                let subject = RequestSubject(request);
                write!(f, "{subject}")
            }
            Args::Transit {
                region,
                goal: _,
                to: _,
            }
            | Args::AssignCall { region, server: _ }
            | Args::CloseCall { region, server: _ } => write!(f, "{region}"),
            Args::Crash { server } | Args::FenceCall { server } => write!(f, "{server}"),
            Args::AddRegions {
                table,
                first: _,
                bounds: _,
            }
            | Args::DropRegions { table, ids: _ } => write!(f, "{table}"),
            Args::LayoutCall { root } | Args::SweepLayout { root } => {
                let root = root.0;
                write!(f, "{root}")
            }
        }
    }
}

// A server, or `-` for none.
#[derive(Drop)]
pub(crate) struct Holder<'a>(pub(crate) &'a Option<ServerName>);

impl<'a> fmt::Display for Holder<'a> {
    ghost use Rattle.std.specs.Prelude.{Some};
    ghost use Rattle.hm_show.specs.Words.{holder_text};

    ghost output = { λ s. Some (holder_text s.0.now) };

    fn fmt<W: fmt::Write>(&self, f: &mut fmt::Formatter<W>) -> fmt::Result {
        match self.0 {
            Some(server) => write!(f, "{server}"),
            None => f.write_str("-"),
        }
    }
}
