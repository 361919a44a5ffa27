//! Why a journal has no image.
use std::alloc::AllocError;
use thiserror::Error;

/// Why a journal has no image.
#[derive(Clone, Copy, Debug, PartialEq, Eq, Error)]
pub enum ImageWhy {
    /// So many procedures are unfinished.
    #[error("unsettled {0}")]
    Unsettled(u64),
    /// The greater of how many entries were recorded and the last procedure's number is too great for a base to tell.
    #[error("too old {0}")]
    TooOld(u64),
    /// Memory ran out.
    #[error("out of memory")]
    Memory,
}

impl From<AllocError> for ImageWhy {
    ghost use Rattle.std.specs.Prelude.{◌≡◌};
    ghost use Rattle.hm_image.specs.declared.why.ImageWhy.TheVariants.{Memory};

    ghost from_gives = { λ _ why. why ≡ Memory };

    fn from(_error: AllocError) -> ImageWhy {
        ImageWhy::Memory
    }
}
