//! Whether a sheet can be asked at an input: its condition, computed.
ghost use Rattle.std.specs.Prelude.{◌≡◌, ◌≤◌, map, IsTrue};
ghost use Rattle.std.specs.List.{AllByRecursion};
ghost use Rattle.hm_model.specs.Evaluation.{CanStep, ids_in, named_ids};
ghost use Rattle.hm_model.specs.Views.{first_id_of};

use hm_data::{Args, Request, StepIn};
use hm_names::RegionName;
use hm_sheet::{Valid, needs_pick};

fn are_ids(ids: &[u64]) -> bool
    ensures { IsTrue result → AllByRecursion (λ id. 1 ≤ id) ids.now }
{
    let mut rest = ids;
    while let [id, following @ ..] = rest {
        if *id == 0 {
            return false;
        }
        rest = following;
    }
    true
}

fn have_ids(regions: &[RegionName]) -> bool
    ensures { IsTrue result → AllByRecursion (λ id. 1 ≤ id) (map (λ region. region.id) regions.now) }
{
    let mut rest = regions;
    while let [region, following @ ..] = rest {
        if region.id == 0 {
            return false;
        }
        rest = following;
    }
    true
}

fn request_has_ids(request: &Request) -> bool
    ensures { IsTrue result → AllByRecursion (λ id. 1 ≤ id) (ids_in request.now) }
{
    match request {
        Request::SplitRegion { region, key: _ } => region.id >= 1,
        Request::MergeRegions { regions } => have_ids(regions.as_slice()),
        Request::Move { region, to: _ } => region.id >= 1,
        _ => true,
    }
}

fn has_ids(args: &Args) -> bool
    ensures { IsTrue result → AllByRecursion (λ id. 1 ≤ id) (named_ids args.now) }
{
    match args {
        Args::Root { request, first } => *first >= 1 && request_has_ids(request),
        Args::Transit {
            region,
            goal: _,
            to: _,
        } => region.id >= 1,
        Args::AddRegions {
            table: _,
            first,
            bounds: _,
        } => *first >= 1,
        Args::DropRegions { table: _, ids } => are_ids(ids.as_slice()),
        Args::AssignCall { region, server: _ } => region.id >= 1,
        Args::CloseCall { region, server: _ } => region.id >= 1,
        _ => true,
    }
}

fn first_id(args: &Args) -> u64
    ensures { result ≡ first_id_of args.now }
{
    match args {
        Args::Root { request: _, first } => *first,
        Args::AddRegions {
            table: _,
            first,
            bounds: _,
        } => *first,
        _ => 0,
    }
}

/// Whether the sheet can be asked at the input.
pub fn can_step(sheet: &Valid, at: &StepIn) -> bool
    ensures { IsTrue result → CanStep sheet.now at.now }
{
    sheet.sheet().kind == at.kind
        && usize::from(at.row) < sheet.sheet().rows.as_slice().len()
        && has_ids(&at.args)
        && first_id(&at.args) < 4_294_967_296
        && (at.pick.is_some() || !needs_pick(sheet, at))
}
