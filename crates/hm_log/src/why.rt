//! Why a log can't be opened.
ghost use Rattle.std.specs.Prelude.{◌≡◌};
ghost use Rattle.hm_log.specs.declared.why.OpenWhy.TheVariants.{Fault, Memory};

use hm_ports::Failed;
use std::alloc::{AllocError, AllocFailed};
use thiserror::Error;

/// Why a log can't be opened. A number is a place in bytes from the start.
#[derive(Clone, Copy, Debug, PartialEq, Eq, Drop, Error)]
pub enum OpenWhy {
    /// The disk failed.
    #[error("the disk failed")]
    Fault,

    /// The file has 1 to 9 bytes, or 10 in version 2, and this is its size; or this is the first byte of
    /// `HMASTERJ` that differs; or it is 9, and no frames stand where the last bytes of a moved log say.
    #[error("no log: byte {0}")]
    NotALog(u64),

    /// The gate at this place is open, and no whole frame of 1 to 65,536 bytes and no further gate
    /// follows it; or it is closed, and isn't the last byte of the frames of a moved log.
    #[error("no frame behind the gate at byte {0}")]
    BadFrame(u64),

    /// There isn't enough memory.
    #[error("out of memory")]
    Memory,
}

impl From<Failed> for OpenWhy {
    ghost from_gives = { λ _ e. e ≡ Fault };

    fn from(_: Failed) -> Self {
        OpenWhy::Fault
    }
}

impl From<AllocError> for OpenWhy {
    ghost from_gives = { λ _ e. e ≡ Memory };

    fn from(_: AllocError) -> Self {
        OpenWhy::Memory
    }
}

impl<T: Drop> From<AllocFailed<T>> for OpenWhy {
    ghost from_gives = { λ _ e. e ≡ Memory };

    fn from(_: AllocFailed<T>) -> Self {
        OpenWhy::Memory
    }
}
