//! What was made beside a value, and what can be counted.
ghost use Rattle.std.specs.Prelude.{◌≡◌, ◌-◌, ◌^◌, ◌≤◌, ◌<◌, Ok, IfOk, OnOk};

use std::alloc::AllocError;

// What a call made, with a value beside it.
pub(crate) fn beside<T: Drop, U: Drop>(
    made: Result<T, AllocError>,
    value: U,
) -> Result<(T, U), AllocError>
    ensures { IfOk result (λ pair. (made ≡ Ok pair.0) × (pair.1 ≡ value)) }
{
    Ok((made?, value))
}

// How many entries there may be, at most.
const MOST: u64 = 0x7FFF_FFFF_FFFF_FFFF;

// Whether so many more can be counted.
pub(crate) fn can_count(count: u64, more: u64) -> Result<(), AllocError>
    requires { count < 2 ^ 63 }
    ensures { OnOk result (more ≤ 2 ^ 63 - 1 - count) }
{
    if MOST - count < more {
        return Err(AllocError);
    }
    Ok(())
}
