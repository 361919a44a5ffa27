ghost use Rattle.std.specs.Prelude.{◌≡◌, IfOk};
ghost use Rattle.hm_data.specs.declared.args.Args.TheVariants as args_is;

use crate::pair::copy_two;
use crate::place::Goal;
use crate::request::Request;
use hm_names::{Copied, List, Pid, RegionName, RowKey, Same, ServerName, TableName};
use std::alloc::{AllocError, Global};

/// What a procedure works on.
#[derive(Drop)]
pub enum Args {
    /// `first` is the lowest region id not yet drawn for the table of the request before its submission, and 1 where
    /// the request has no table.
    Root {
        request: Request,
        first: u64,
    },
    Transit {
        region: RegionName,
        goal: Goal,
        to: Option<ServerName>,
    },
    Crash {
        server: ServerName,
    },
    /// Region i from `first` on lies from bound i to bound i + 1.
    AddRegions {
        table: TableName,
        first: u64,
        bounds: List<RowKey>,
    },
    DropRegions {
        table: TableName,
        ids: List<u64>,
    },
    AssignCall {
        region: RegionName,
        server: ServerName,
    },
    CloseCall {
        region: RegionName,
        server: ServerName,
    },
    FenceCall {
        server: ServerName,
    },
    LayoutCall {
        root: Pid,
    },
    SweepLayout {
        root: Pid,
    },
}

fn copy_root(request: &Request, first: u64, alloc: Global) -> Result<Args, AllocError>
    ensures { IfOk result (λ it. it ≡ args_is.Root request.now first) }
{
    Ok(Args::Root {
        request: request.copy(alloc)?,
        first,
    })
}

fn copy_transit(
    region: &RegionName,
    goal: Goal,
    to: &Option<ServerName>,
    alloc: Global,
) -> Result<Args, AllocError>
    ensures { IfOk result (λ it. it ≡ args_is.Transit region.now goal to.now) }
{
    let (region, to) = copy_two(region, to, alloc)?;
    Ok(Args::Transit { region, goal, to })
}

fn copy_crash(server: &ServerName, alloc: Global) -> Result<Args, AllocError>
    ensures { IfOk result (λ it. it ≡ args_is.Crash server.now) }
{
    Ok(Args::Crash {
        server: server.copy(alloc)?,
    })
}

fn copy_add_regions(
    table: &TableName,
    first: u64,
    bounds: &List<RowKey>,
    alloc: Global,
) -> Result<Args, AllocError>
    ensures { IfOk result (λ it. it ≡ args_is.AddRegions table.now first bounds.now) }
{
    let (table, bounds) = copy_two(table, bounds, alloc)?;
    Ok(Args::AddRegions {
        table,
        first,
        bounds,
    })
}

fn copy_drop_regions(table: &TableName, ids: &List<u64>, alloc: Global) -> Result<Args, AllocError>
    ensures { IfOk result (λ it. it ≡ args_is.DropRegions table.now ids.now) }
{
    let (table, ids) = copy_two(table, ids, alloc)?;
    Ok(Args::DropRegions { table, ids })
}

fn copy_assign_call(
    region: &RegionName,
    server: &ServerName,
    alloc: Global,
) -> Result<Args, AllocError>
    ensures { IfOk result (λ it. it ≡ args_is.AssignCall region.now server.now) }
{
    let (region, server) = copy_two(region, server, alloc)?;
    Ok(Args::AssignCall { region, server })
}

fn copy_close_call(
    region: &RegionName,
    server: &ServerName,
    alloc: Global,
) -> Result<Args, AllocError>
    ensures { IfOk result (λ it. it ≡ args_is.CloseCall region.now server.now) }
{
    let (region, server) = copy_two(region, server, alloc)?;
    Ok(Args::CloseCall { region, server })
}

fn copy_fence_call(server: &ServerName, alloc: Global) -> Result<Args, AllocError>
    ensures { IfOk result (λ it. it ≡ args_is.FenceCall server.now) }
{
    Ok(Args::FenceCall {
        server: server.copy(alloc)?,
    })
}

impl Copied for Args {
    fn copy(&self, alloc: Global) -> Result<Args, AllocError> {
        match self {
            Args::Root { request, first } => copy_root(request, *first, alloc),
            Args::Transit { region, goal, to } => copy_transit(region, *goal, to, alloc),
            Args::Crash { server } => copy_crash(server, alloc),
            Args::AddRegions {
                table,
                first,
                bounds,
            } => copy_add_regions(table, *first, bounds, alloc),
            Args::DropRegions { table, ids } => copy_drop_regions(table, ids, alloc),
            Args::AssignCall { region, server } => copy_assign_call(region, server, alloc),
            Args::CloseCall { region, server } => copy_close_call(region, server, alloc),
            Args::FenceCall { server } => copy_fence_call(server, alloc),
            Args::LayoutCall { root } => Ok(Args::LayoutCall { root: *root }),
            Args::SweepLayout { root } => Ok(Args::SweepLayout { root: *root }),
        }
    }
}

impl Same for Args {
    fn same(&self, other: &Args) -> bool {
        match self {
            Args::Root { request, first } => match other {
                Args::Root {
                    request: other_request,
                    first: other_first,
                } => request.same(other_request) && first == other_first,
                _ => false,
            },
            Args::Transit { region, goal, to } => match other {
                Args::Transit {
                    region: other_region,
                    goal: other_goal,
                    to: other_to,
                } => region.same(other_region) && goal.same(other_goal) && to.same(other_to),
                _ => false,
            },
            Args::Crash { server } => match other {
                Args::Crash {
                    server: other_server,
                } => server.same(other_server),
                _ => false,
            },
            Args::AddRegions {
                table,
                first,
                bounds,
            } => match other {
                Args::AddRegions {
                    table: other_table,
                    first: other_first,
                    bounds: other_bounds,
                } => table.same(other_table) && first == other_first && bounds.same(other_bounds),
                _ => false,
            },
            Args::DropRegions { table, ids } => match other {
                Args::DropRegions {
                    table: other_table,
                    ids: other_ids,
                } => table.same(other_table) && ids.same(other_ids),
                _ => false,
            },
            Args::AssignCall { region, server } => match other {
                Args::AssignCall {
                    region: other_region,
                    server: other_server,
                } => region.same(other_region) && server.same(other_server),
                _ => false,
            },
            Args::CloseCall { region, server } => match other {
                Args::CloseCall {
                    region: other_region,
                    server: other_server,
                } => region.same(other_region) && server.same(other_server),
                _ => false,
            },
            Args::FenceCall { server } => match other {
                Args::FenceCall {
                    server: other_server,
                } => server.same(other_server),
                _ => false,
            },
            Args::LayoutCall { root } => match other {
                Args::LayoutCall { root: other_root } => root.same(other_root),
                _ => false,
            },
            Args::SweepLayout { root } => match other {
                Args::SweepLayout { root: other_root } => root.same(other_root),
                _ => false,
            },
        }
    }
}

/// Sub-procedures that a step asks for.
#[derive(Drop)]
pub enum Child {
    /// One transit for each id, in order.
    Transits {
        table: TableName,
        ids: List<u64>,
        goal: Goal,
    },
    One(Args),
}

impl Copied for Child {
    fn copy(&self, alloc: Global) -> Result<Child, AllocError> {
        match self {
            Child::Transits { table, ids, goal } => {
                let goal = *goal;
                let (table, ids) = copy_two(table, ids, alloc)?;
                Ok(Child::Transits { table, ids, goal })
            }
            Child::One(args) => Ok(Child::One(args.copy(alloc)?)),
        }
    }
}

impl Same for Child {
    fn same(&self, other: &Child) -> bool {
        match self {
            Child::Transits { table, ids, goal } => match other {
                Child::Transits {
                    table: other_table,
                    ids: other_ids,
                    goal: other_goal,
                } => table.same(other_table) && ids.same(other_ids) && goal.same(other_goal),
                _ => false,
            },
            Child::One(args) => match other {
                Child::One(other_args) => args.same(other_args),
                _ => false,
            },
        }
    }
}
