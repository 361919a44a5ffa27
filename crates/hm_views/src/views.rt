// What a procedure works on, by its args: each is there only in the kinds that have it.
ghost use Rattle.std.specs.Prelude.{◌≡◌, option_copied};
ghost use Rattle.hm_model.specs.Kinds.{table_of_first as first_table, table_of_request as requested_table};
ghost use Rattle.hm_model.specs.RegionActs.{cut_of as cutting};
ghost use Rattle.hm_model.specs.NamespaceActs.{version_of as versioned};
ghost use Rattle.hm_model.specs.Views.{asked_of, namespace_of as namespace, namespace_of_request as requested_namespace, table_of as table, region_of as region, region_of_request as requested_region, first_id_of as first_id};
ghost use Rattle.hm_model.specs.Wanted.{server_of as server, layout_of as layout, goal_in as goal, ids_of as ids};

use hm_data::{Args, Goal, Request};
use hm_names::{Ns, Pid, RegionName, RowKey, ServerName, TableName};

fn namespace_of_request(request: &Request) -> Option<&Ns>
    ensures { option_copied result ≡ requested_namespace request.now }
{
    match request {
        Request::CreateNamespace { ns } => Some(ns),
        Request::DropNamespace { ns } => Some(ns),
        Request::CreateTable { table, keys: _ } => Some(&table.ns),
        _ => None,
    }
}

/// The namespace that a procedure is about, where it reads that namespace's row.
pub fn namespace_of(args: &Args) -> Option<&Ns>
    ensures { option_copied result ≡ namespace args.now }
{
    match args {
        Args::Root { request, first: _ } => namespace_of_request(request),
        _ => None,
    }
}

fn table_of_first(regions: &[RegionName]) -> Option<&TableName>
    ensures { option_copied result ≡ first_table regions.now }
{
    match regions {
        [] => None,
        [first, ..] => Some(&first.table),
    }
}

/// The table of a request: its own, or that of the first region that it names.
pub fn table_of_request(request: &Request) -> Option<&TableName>
    ensures { option_copied result ≡ requested_table request.now }
{
    match request {
        Request::CreateNamespace { ns: _ } => None,
        Request::DropNamespace { ns: _ } => None,
        Request::CreateTable { table, keys: _ } => Some(table),
        Request::DeleteTable { table } => Some(table),
        Request::EnableTable { table } => Some(table),
        Request::DisableTable { table } => Some(table),
        Request::ModifyTable { table, version: _ } => Some(table),
        Request::SplitRegion { region, key: _ } => Some(&region.table),
        Request::MergeRegions { regions } => table_of_first(regions.as_slice()),
        Request::Move { region, to: _ } => Some(&region.table),
    }
}

/// The table that the rows are of which a procedure adds, removes or changes.
pub fn table_of(args: &Args) -> Option<&TableName>
    ensures { option_copied result ≡ table args.now }
{
    match args {
        Args::Root { request, first: _ } => table_of_request(request),
        Args::Transit {
            region,
            goal: _,
            to: _,
        } => Some(&region.table),
        Args::AddRegions {
            table,
            first: _,
            bounds: _,
        } => Some(table),
        Args::DropRegions { table, ids: _ } => Some(table),
        Args::AssignCall { region, server: _ } => Some(&region.table),
        Args::CloseCall { region, server: _ } => Some(&region.table),
        _ => None,
    }
}

fn region_of_request(request: &Request) -> Option<&RegionName>
    ensures { option_copied result ≡ requested_region request.now }
{
    match request {
        Request::SplitRegion { region, key: _ } => Some(region),
        Request::Move { region, to: _ } => Some(region),
        _ => None,
    }
}

/// The one region that a procedure works on.
pub fn region_of(args: &Args) -> Option<&RegionName>
    ensures { option_copied result ≡ region args.now }
{
    match args {
        Args::Root { request, first: _ } => region_of_request(request),
        Args::Transit {
            region,
            goal: _,
            to: _,
        } => Some(region),
        Args::AssignCall { region, server: _ } => Some(region),
        Args::CloseCall { region, server: _ } => Some(region),
        _ => None,
    }
}

/// The key at which a procedure splits its region.
pub fn cut_of(args: &Args) -> Option<&RowKey>
    ensures { option_copied result ≡ cutting (asked_of args.now) }
{
    match args {
        Args::Root {
            request: Request::SplitRegion { region: _, key },
            first: _,
        } => Some(key),
        _ => None,
    }
}

/// The version that a procedure gives its table.
pub fn version_of(args: &Args) -> Option<u64>
    ensures { result ≡ versioned (asked_of args.now) }
{
    match args {
        Args::Root {
            request: Request::ModifyTable { table: _, version },
            first: _,
        } => Some(*version),
        _ => None,
    }
}

/// The first id of the regions that a procedure adds.
pub fn first_id_of(args: &Args) -> u64
    ensures { result ≡ first_id args.now }
{
    match args {
        Args::Root { request: _, first } => *first,
        Args::AddRegions {
            table: _,
            first,
            bounds: _,
        } => *first,
        _ => 0,
    }
}

/// The ids of the regions that a procedure removes.
pub fn ids_of(args: &Args) -> &[u64]
    ensures { result.now ≡ ids args.now }
{
    match args {
        Args::DropRegions { table: _, ids } => ids.as_slice(),
        _ => &[],
    }
}

/// The goal of a transit; a root's is a move.
pub fn goal_in(args: &Args) -> Goal
    ensures { result ≡ goal args.now }
{
    match args {
        Args::Transit {
            region: _,
            goal,
            to: _,
        } => *goal,
        _ => Goal::Move,
    }
}

/// The server that a procedure calls or fences.
pub fn server_of(args: &Args) -> Option<&ServerName>
    ensures { option_copied result ≡ server args.now }
{
    match args {
        Args::Crash { server } => Some(server),
        Args::AssignCall { region: _, server } => Some(server),
        Args::CloseCall { region: _, server } => Some(server),
        Args::FenceCall { server } => Some(server),
        _ => None,
    }
}

/// The root whose files a call is about.
pub fn layout_of(args: &Args) -> Option<Pid>
    ensures { result ≡ layout args.now }
{
    match args {
        Args::LayoutCall { root } => Some(*root),
        Args::SweepLayout { root } => Some(*root),
        _ => None,
    }
}
