//! Regions in name order.
ghost use Rattle.std.specs.Prelude.{◌≡◌, ◌≤◌, IfOk, OnOk, length, insert};
ghost use Rattle.hm_model.specs.Locks.{in_name_order as ordered, with_region};
ghost use Rattle.hm_locks.specs.Needs.{is_before as before};

use hm_names::{Copied, RegionName};
use std::alloc::{AllocError, Global};
use std::cmp::Ordering;

// The region doesn't stand after the other in name order.
fn is_before(region: &RegionName, other: &RegionName) -> bool
    ensures { result ≡ before region.now other.now }
{
    !matches!(region.cmp(other), Ordering::Greater)
}

// Where the region goes among regions in name order.
fn place_for(sorted: &[RegionName], region: &RegionName) -> usize
    ensures within { result ≤ length sorted.now }
    ensures place { insert sorted.now result region.now ≡ with_region region.now sorted.now }
{
    for (place, other) in sorted.iter().enumerate() {
        if is_before(region, other) {
            return place;
        }
    }
    sorted.len()
}

fn insert_region(sorted: &mut Vec<RegionName>, region: RegionName) -> Result<(), AllocError>
    ensures { OnOk result (sorted.new.items ≡ with_region region sorted.old.items) }
{
    let place = place_for(sorted, &region);
    sorted.insert(place, region)?;
    Ok(())
}

// Equal regions, in name order.
pub(crate) fn in_name_order(
    alloc: Global,
    regions: &[RegionName],
) -> Result<Vec<RegionName>, AllocError>
    ensures { IfOk result (λ v. v.items ≡ ordered regions.now) }
{
    let mut sorted = Vec::new(alloc);
    let count = regions.len();
    for done in 0..count {
        insert_region(&mut sorted, regions[count - 1 - done].copy(alloc)?)?;
    }
    Ok(sorted)
}
