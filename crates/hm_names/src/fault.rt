use crate::copied::Copied;
use crate::same::Same;
use std::alloc::{AllocError, Global};
use thiserror::Error;

/// Why bytes are no name. A number is a length or a place; places count bytes of the whole text from 0.
#[derive(Clone, Copy, Debug, PartialEq, Eq, Error)]
pub enum NameFault {
    /// The text, or a part of it that may not be empty, has no bytes.
    #[error("Empty")]
    Empty,
    /// So many bytes are more than the part of the name may have.
    #[error("TooLong {0}")]
    TooLong(u64),
    /// The byte at this place can't stand there.
    #[error("BadByte {0}")]
    BadByte(u64),
    /// No number in range stands at this place, which is the text's length where the
    /// separators aren't as many as they must be.
    #[error("BadNumber {0}")]
    BadNumber(u64),
    /// Memory ran out.
    #[error("Memory")]
    Memory,
}

impl From<AllocError> for NameFault {
    ghost use Rattle.std.specs.Prelude.{◌≡◌};
    ghost use Rattle.hm_names.specs.declared.fault.NameFault.TheVariants.{Memory};

    ghost from_gives = { λ _ e. e ≡ Memory };

    fn from(_error: AllocError) -> NameFault {
        NameFault::Memory
    }
}

impl Copied for NameFault {
    fn copy(&self, _alloc: Global) -> Result<NameFault, AllocError> {
        Ok(*self)
    }
}

impl Same for NameFault {
    fn same(&self, other: &NameFault) -> bool {
        self == other
    }
}
