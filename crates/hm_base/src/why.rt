//! Why parts are no base.
use std::alloc::AllocError;

/// Why parts are no base.
#[derive(Clone, Copy, Debug, PartialEq, Eq)]
pub enum BaseWhy {
    /// The part of this number, from 0 on, doesn't fit behind those before it; or it is the number of all parts, where each fits and
    /// the whole is no base.
    Part(u64),
    /// Memory ran out.
    Memory,
}

impl From<AllocError> for BaseWhy {
    ghost use Rattle.std.specs.Prelude.{◌≡◌};
    ghost use Rattle.hm_base.specs.declared.why.BaseWhy.TheVariants.{Memory};

    ghost from_gives = { λ _ why. why ≡ Memory };

    fn from(_error: AllocError) -> BaseWhy {
        BaseWhy::Memory
    }
}
