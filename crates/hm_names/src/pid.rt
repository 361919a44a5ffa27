ghost use Rattle.std.proofs.Common.{rules};

use crate::copied::Copied;
use crate::same::Same;
use hm_hints::Hinted;
use std::alloc::{AllocError, Global};

/// The number of a procedure, from 1.
#[derive(Clone, Copy, Debug, PartialEq, Eq, PartialOrd, Ord)]
pub struct Pid(pub u64);

impl Copied for Pid {
    fn copy(&self, _alloc: Global) -> Result<Pid, AllocError> {
        Ok(*self)
    }
}

impl Same for Pid {
    fn same(&self, other: &Pid) -> bool {
        self == other
    }
}

impl Hinted for Pid {
    ghost hint_of = { λ pid. pid.0 };

    ghost rises = { Prim.search rules };

    fn own_hint(&self) -> u64 {
        self.0
    }
}
