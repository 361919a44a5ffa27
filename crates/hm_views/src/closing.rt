// The regions that a procedure closes to change them.
ghost use Rattle.std.specs.Prelude.{◌≡◌, [], ◌∷◌, IfOk};
ghost use Rattle.hm_model.specs.Undoing.{closed_by as closed, closed_by_request as closed_request};

use hm_data::{Args, Request};
use hm_names::{Copied, RegionName};
use std::alloc::{AllocError, Global};

// A copy of a region, as the one of a list.
fn one_region(alloc: Global, region: &RegionName) -> Result<Vec<RegionName>, AllocError>
    ensures { IfOk result (λ v. v.items ≡ region.now ∷ []) }
{
    let mut regions = Vec::new(alloc);
    regions.push(region.copy(alloc)?)?;
    Ok(regions)
}

/// The regions that a request closes to change them.
pub fn closed_by_request(alloc: Global, request: &Request) -> Result<Vec<RegionName>, AllocError>
    ensures { IfOk result (λ v. v.items ≡ closed_request request.now) }
{
    match request {
        Request::SplitRegion { region, key: _ } => one_region(alloc, region),
        Request::MergeRegions { regions } => Ok(regions.copy(alloc)?.into_vec()),
        _ => Ok(Vec::new(alloc)),
    }
}

/// The regions that a procedure closes to change them.
pub fn closed_by(alloc: Global, args: &Args) -> Result<Vec<RegionName>, AllocError>
    ensures { IfOk result (λ v. v.items ≡ closed args.now) }
{
    match args {
        Args::Root { request, first: _ } => closed_by_request(alloc, request),
        _ => Ok(Vec::new(alloc)),
    }
}
