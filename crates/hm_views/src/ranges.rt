// Ranges of copied keys.
ghost use Rattle.std.specs.Prelude.{◌≡◌, IfOk};

use hm_names::{Copied, KeyRange, RowKey};
use std::alloc::{AllocError, Global};

// The range from a start to a copy of an end.
fn range_to(alloc: Global, start: RowKey, end: &RowKey) -> Result<KeyRange, AllocError>
    ensures { IfOk result (λ range. range ≡ record { start = start; end = end.now }) }
{
    let end = end.copy(alloc)?;
    Ok(KeyRange { start, end })
}

/// The range from a start to an end.
pub fn range_of_keys(alloc: Global, start: &RowKey, end: &RowKey) -> Result<KeyRange, AllocError>
    ensures { IfOk result (λ range. range ≡ record { start = start.now; end = end.now }) }
{
    let start = start.copy(alloc)?;
    range_to(alloc, start, end)
}
