//! Why frames are no image.
use std::alloc::AllocError;
use thiserror::Error;

/// Why frames aren't those of parts.
#[derive(Clone, Copy, Debug, PartialEq, Eq, Error)]
pub enum PartsWhy {
    /// The frame of this number, from 0, is the first that spells no part, from this byte of it on.
    #[error("frame {number} spells no part from byte {at} on")]
    Entry { number: u64, at: u64 },
    /// Memory ran out.
    #[error("out of memory")]
    Memory,
}

impl From<AllocError> for PartsWhy {
    ghost use Rattle.std.specs.Prelude.{◌≡◌};
    ghost use Rattle.hm_roll.specs.declared.why.PartsWhy.TheVariants.{Memory};

    ghost from_gives = { λ _ why. why ≡ Memory };

    fn from(_error: AllocError) -> PartsWhy {
        PartsWhy::Memory
    }
}
