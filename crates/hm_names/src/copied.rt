ghost use Rattle.std.specs.Prelude.{◌≡◌, IfOk};

use std::alloc::{AllocError, Global};

/// A value of which another, equal one can be made.
pub trait Copied: Sized {
    /// An equal value; memory is the one thing that can be missing.
    fn copy(&self, alloc: Global) -> Result<Self, AllocError>
        ensures { IfOk result (λ x. x ≡ self.now) };
}

impl Copied for u64 {
    fn copy(&self, _alloc: Global) -> Result<u64, AllocError> {
        Ok(*self)
    }
}

impl<T: Copied + Drop> Copied for Option<T> {
    fn copy(&self, alloc: Global) -> Result<Option<T>, AllocError> {
        match self {
            None => Ok(None),
            Some(x) => Ok(Some(x.copy(alloc)?)),
        }
    }
}

impl<A: Copied + Drop, B: Copied + Drop> Copied for (A, B) {
    fn copy(&self, alloc: Global) -> Result<(A, B), AllocError> {
        Ok((self.0.copy(alloc)?, self.1.copy(alloc)?))
    }
}
