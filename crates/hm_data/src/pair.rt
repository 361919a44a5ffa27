//! Several values copied at once.
ghost use Rattle.std.specs.Prelude.{◌≡◌, IfOk};

use hm_names::Copied;
use std::alloc::{AllocError, Global};

// Two values like these.
pub fn copy_two<A: Copied + Drop, B: Copied + Drop>(
    first: &A,
    second: &B,
    alloc: Global,
) -> Result<(A, B), AllocError>
    ensures { IfOk result (λ x. (x.0 ≡ first.now) × (x.1 ≡ second.now)) }
{
    Ok((first.copy(alloc)?, second.copy(alloc)?))
}

// Three values like these.
pub fn copy_three<A: Copied + Drop, B: Copied + Drop, C: Copied + Drop>(
    first: &A,
    second: &B,
    third: &C,
    alloc: Global,
) -> Result<(A, B, C), AllocError>
    ensures { IfOk result (λ x. (x.0 ≡ first.now) × (x.1 ≡ second.now) × (x.2 ≡ third.now)) }
{
    let (first, second) = copy_two(first, second, alloc)?;
    Ok((first, second, third.copy(alloc)?))
}
