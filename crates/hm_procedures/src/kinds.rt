//! The kinds of procedures.
ghost use Rattle.std.specs.Prelude.{◌≡◌};
ghost use Rattle.hm_model.specs.Kinds.{first_row_of as row_at_first, goal_row, kind_of as kind, request_kind};

use hm_data::{Args, Goal, Request};

/// The kind that a request asks for.
pub fn kind_asked(request: &Request) -> u8
    ensures { result ≡ request_kind request.now }
{
    match request {
        Request::CreateNamespace { ns: _ } => 1,
        Request::DropNamespace { ns: _ } => 2,
        Request::CreateTable { table: _, keys: _ } => 3,
        Request::DeleteTable { table: _ } => 4,
        Request::EnableTable { table: _ } => 5,
        Request::DisableTable { table: _ } => 6,
        Request::ModifyTable {
            table: _,
            version: _,
        } => 7,
        Request::SplitRegion { region: _, key: _ } => 8,
        Request::MergeRegions { regions: _ } => 9,
        Request::Move { region: _, to: _ } => 10,
    }
}

// The kind of a procedure.
pub(crate) fn kind_of(args: &Args) -> u8
    ensures { result ≡ kind args.now }
{
    match args {
        Args::Root { request, first: _ } => kind_asked(request),
        Args::Transit {
            region: _,
            goal: _,
            to: _,
        } => 10,
        Args::Crash { server: _ } => 11,
        Args::AddRegions {
            table: _,
            first: _,
            bounds: _,
        } => 20,
        Args::DropRegions { table: _, ids: _ } => 21,
        Args::AssignCall {
            region: _,
            server: _,
        } => 23,
        Args::CloseCall {
            region: _,
            server: _,
        } => 24,
        Args::FenceCall { server: _ } => 25,
        Args::LayoutCall { root: _ } => 26,
        Args::SweepLayout { root: _ } => 27,
    }
}

// The row at which a transit begins.
fn row_of_goal(goal: Goal) -> u8
    ensures { result ≡ goal_row goal }
{
    match goal {
        Goal::Assign => 0,
        Goal::Unassign => 3,
        Goal::Move => 5,
    }
}

// The row at which a procedure begins.
pub(crate) fn first_row_of(args: &Args) -> u8
    ensures { result ≡ row_at_first args.now }
{
    match args {
        Args::Root { request, first: _ } => match request {
            Request::Move { region: _, to: _ } => 5,
            _ => 0,
        },
        Args::Transit {
            region: _,
            goal,
            to: _,
        } => row_of_goal(*goal),
        _ => 0,
    }
}
