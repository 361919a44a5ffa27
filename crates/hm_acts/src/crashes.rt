// The acts of crashes.
ghost use Rattle.std.specs.Prelude.{◌≡◌, IfOk};
ghost use Rattle.hm_model.specs.CrashActs.{fence as fencing, reassign as reassigning};

use crate::outs::{ends_with, goes_on, spawns, spawns_one};
use hm_data::{Args, Goal, StepOut, Told};
use hm_names::{Copied, RegionName};
use hm_views::pieces::transits;
use hm_views::views::server_of;
use std::alloc::{AllocError, Global};

/// Has the server fenced.
pub(crate) fn fence(alloc: Global, next: u8, args: &Args) -> Result<StepOut, AllocError>
    ensures { IfOk result (λ out. out ≡ fencing next args.now) }
{
    let Some(server) = server_of(args) else {
        return Ok(goes_on(alloc, next));
    };
    let server = server.copy(alloc)?;
    spawns_one(alloc, next, Args::FenceCall { server })
}

/// Has the regions of the server assigned; the end where it has none.
pub(crate) fn reassign(
    alloc: Global,
    next: u8,
    regions: &[RegionName],
) -> Result<StepOut, AllocError>
    ensures { IfOk result (λ out. out ≡ reassigning next regions.now) }
{
    let children = transits(alloc, Goal::Assign, regions)?;
    if children.is_empty() {
        return Ok(ends_with(alloc, Told::Nothing));
    }
    Ok(spawns(alloc, next, children))
}
