//! The regions that an entry names have ids from 1 on, as the name of each region has: laws that do nothing.
ghost use Rattle.std.specs.Prelude.{◌≤◌, [], ◌∷◌, map};
ghost use Rattle.hm_model.specs.Evaluation.{ids_in};
ghost use Rattle.hm_model.specs.RegionIds.{AreIds, AreNamed};

use hm_data::{Entry, Request};
use hm_names::RegionName;

// A region has an id.
fn has_id(region: &RegionName)
    ensures { 1 ≤ region.now.id }
{
    let _id = region.id;
}

// So have several.
fn have_ids(regions: &[RegionName])
    ensures { AreIds (map (λ region. region.id) regions.now) }
{
    for region in regions {
        has_id(region);
    }
}

// A request names regions by their ids.
fn request_names(request: &Request)
    ensures { AreIds (ids_in request.now) }
{
    match request {
        Request::SplitRegion { region, key: _ } => has_id(region),
        Request::MergeRegions { regions } => have_ids(regions.as_slice()),
        Request::Move { region, to: _ } => has_id(region),
        _ => {}
    }
}

// So does an entry.
pub(crate) fn entry_names(entry: &Entry)
    ensures { AreNamed (entry.now ∷ []) }
{
    if let Entry::Submit { nonce: _, request } = entry {
        request_names(request);
    }
}
