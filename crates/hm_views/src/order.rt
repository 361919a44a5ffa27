// Regions in name order.
ghost use Rattle.std.specs.Prelude.{◌≡◌, IfOk, map};
ghost use Rattle.hm_model.specs.Locks.{in_name_order as ordered};

use hm_names::{Copied, RegionName};
use std::alloc::{AllocError, Global};

fn copies(alloc: Global, regions: &[RegionName]) -> Result<Vec<RegionName>, AllocError>
    ensures { IfOk result (λ v. v.items ≡ regions.now) }
{
    let mut copied = Vec::new(alloc);
    for region in regions {
        copied.push(region.copy(alloc)?)?;
    }
    Ok(copied)
}

/// Copies of the regions, in name order.
pub fn in_name_order(alloc: Global, regions: &[RegionName]) -> Result<Vec<RegionName>, AllocError>
    ensures { IfOk result (λ v. v.items ≡ ordered regions.now) }
{
    let mut copied = copies(alloc, regions)?;
    copied.sort()?;
    Ok(copied)
}

/// The ids of regions.
pub fn ids_of(alloc: Global, regions: &[RegionName]) -> Result<Vec<u64>, AllocError>
    ensures { IfOk result (λ v. v.items ≡ map (λ r. r.id) regions.now) }
{
    let mut ids = Vec::new(alloc);
    for region in regions {
        ids.push(region.id)?;
    }
    Ok(ids)
}
