ghost use Rattle.std.specs.Prelude.{◌≡◌, IfOk};
ghost use Rattle.hm_data.specs.declared.part.Part.TheVariants as part_is;

use crate::answer::Cause;
use crate::args::Args;
use crate::catalog::{Status, TableState};
use crate::pair::copy_two;
use crate::place::Place;
use crate::sheet::Sheet;
use hm_names::{Copied, KeyRange, List, Nonce, Ns, Pid, RegionName, Same, ServerName, TableName};
use std::alloc::{AllocError, Global};

/// A part of what a journal with nothing unfinished came to.
#[derive(Drop)]
pub enum Part {
    /// How many entries were recorded, the last procedure's number, how many parts follow, and the sheets in force.
    Head {
        entries: u64,
        last: Pid,
        parts: u64,
        sheets: List<Sheet>,
    },
    Namespace {
        ns: Ns,
    },
    /// How many region ids were drawn for the table, and its row, where it has one.
    Table {
        table: TableName,
        drawn: u64,
        row: Option<(TableState, u64)>,
    },
    Region {
        region: RegionName,
        range: KeyRange,
        status: Status,
        parents: List<u64>,
        place: Place,
    },
    /// A server that is live, or is fenced.
    Server {
        server: ServerName,
        fenced: bool,
    },
    /// A root that ended well, or failed for this cause.
    Root {
        pid: Pid,
        nonce: Nonce,
        args: Args,
        cause: Option<Cause>,
    },
    /// The layout of this root is there.
    Layout {
        pid: Pid,
    },
}

fn copy_head(
    entries: u64,
    last: Pid,
    parts: u64,
    sheets: &List<Sheet>,
    alloc: Global,
) -> Result<Part, AllocError>
    ensures { IfOk result (λ it. it ≡ part_is.Head entries last parts sheets.now) }
{
    Ok(Part::Head {
        entries,
        last,
        parts,
        sheets: sheets.copy(alloc)?,
    })
}

fn copy_namespace(ns: &Ns, alloc: Global) -> Result<Part, AllocError>
    ensures { IfOk result (λ it. it ≡ part_is.Namespace ns.now) }
{
    Ok(Part::Namespace {
        ns: ns.copy(alloc)?,
    })
}

fn copy_table(
    table: &TableName,
    drawn: u64,
    row: Option<(TableState, u64)>,
    alloc: Global,
) -> Result<Part, AllocError>
    ensures { IfOk result (λ it. it ≡ part_is.Table table.now drawn row) }
{
    Ok(Part::Table {
        table: table.copy(alloc)?,
        drawn,
        row,
    })
}

fn copy_region(
    region: &RegionName,
    range: &KeyRange,
    status: Status,
    parents: &List<u64>,
    place: &Place,
    alloc: Global,
) -> Result<Part, AllocError>
    ensures { IfOk result (λ it. it ≡ part_is.Region region.now range.now status parents.now place.now) }
{
    let bounds = copy_two(region, range, alloc)?;
    let (parents, place) = copy_two(parents, place, alloc)?;
    let (region, range) = bounds;
    Ok(Part::Region {
        region,
        range,
        status,
        parents,
        place,
    })
}

fn copy_server(server: &ServerName, fenced: bool, alloc: Global) -> Result<Part, AllocError>
    ensures { IfOk result (λ it. it ≡ part_is.Server server.now fenced) }
{
    Ok(Part::Server {
        server: server.copy(alloc)?,
        fenced,
    })
}

fn copy_root(
    pid: Pid,
    nonce: Nonce,
    args: &Args,
    cause: Option<Cause>,
    alloc: Global,
) -> Result<Part, AllocError>
    ensures { IfOk result (λ it. it ≡ part_is.Root pid nonce args.now cause) }
{
    Ok(Part::Root {
        pid,
        nonce,
        args: args.copy(alloc)?,
        cause,
    })
}

impl Copied for Part {
    fn copy(&self, alloc: Global) -> Result<Part, AllocError> {
        match self {
            Part::Head {
                entries,
                last,
                parts,
                sheets,
            } => copy_head(*entries, *last, *parts, sheets, alloc),
            Part::Namespace { ns } => copy_namespace(ns, alloc),
            Part::Table { table, drawn, row } => copy_table(table, *drawn, *row, alloc),
            Part::Region {
                region,
                range,
                status,
                parents,
                place,
            } => copy_region(region, range, *status, parents, place, alloc),
            Part::Server { server, fenced } => copy_server(server, *fenced, alloc),
            Part::Root {
                pid,
                nonce,
                args,
                cause,
            } => copy_root(*pid, *nonce, args, *cause, alloc),
            Part::Layout { pid } => Ok(Part::Layout { pid: *pid }),
        }
    }
}

impl Same for Part {
    fn same(&self, other: &Part) -> bool {
        match self {
            Part::Head {
                entries,
                last,
                parts,
                sheets,
            } => match other {
                Part::Head {
                    entries: other_entries,
                    last: other_last,
                    parts: other_parts,
                    sheets: other_sheets,
                } => entries == other_entries
                    && last.same(other_last)
                    && parts == other_parts
                    && sheets.same(other_sheets),
                _ => false,
            },
            Part::Namespace { ns } => match other {
                Part::Namespace { ns: other_ns } => ns.same(other_ns),
                _ => false,
            },
            Part::Table { table, drawn, row } => match other {
                Part::Table {
                    table: other_table,
                    drawn: other_drawn,
                    row: other_row,
                } => table.same(other_table) && drawn == other_drawn && row.same(other_row),
                _ => false,
            },
            Part::Region {
                region,
                range,
                status,
                parents,
                place,
            } => match other {
                Part::Region {
                    region: other_region,
                    range: other_range,
                    status: other_status,
                    parents: other_parents,
                    place: other_place,
                } => region.same(other_region)
                    && range.same(other_range)
                    && status.same(other_status)
                    && parents.same(other_parents)
                    && place.same(other_place),
                _ => false,
            },
            Part::Server { server, fenced } => match other {
                Part::Server {
                    server: other_server,
                    fenced: other_fenced,
                } => server.same(other_server) && fenced == other_fenced,
                _ => false,
            },
            Part::Root {
                pid,
                nonce,
                args,
                cause,
            } => match other {
                Part::Root {
                    pid: other_pid,
                    nonce: other_nonce,
                    args: other_args,
                    cause: other_cause,
                } => pid.same(other_pid)
                    && nonce.same(other_nonce)
                    && args.same(other_args)
                    && cause.same(other_cause),
                _ => false,
            },
            Part::Layout { pid } => match other {
                Part::Layout { pid: other_pid } => pid.same(other_pid),
                _ => false,
            },
        }
    }
}
