//! Why a disk isn't opened as a journal.
use std::alloc::{AllocError, AllocFailed};
use thiserror::Error;

/// Why a disk isn't opened as a journal. A number is that of a frame or an entry, from 0.
#[derive(Clone, Copy, Debug, PartialEq, Eq, Error)]
pub enum JournalWhy {
    /// The disk failed.
    #[error("the disk failed")]
    Fault,
    /// The bytes are no log, which this place of them shows.
    #[error("no log: byte {0}")]
    NotALog(u64),
    /// The gate at this place is open, and no whole frame follows it.
    #[error("no frame behind the gate at byte {0}")]
    BadFrame(u64),
    /// The frame of this number spells no entry, from this byte of it on.
    #[error("frame {number} spells no entry from byte {at} on")]
    BadEntry { number: u64, at: u64 },
    /// This rule refuses the entry of this number: the lowest that it breaks. Where all are parts of a base that isn't whole,
    /// that of bases, and the number is that of all entries.
    #[error("entry {number} breaks rule {rule}")]
    Illegal { number: u64, rule: u8 },
    /// The journal began with another sheet of this kind, or adopted one, and the same of each lower kind.
    #[error("the sheets of kind {0} differ")]
    SheetsDiffer(u8),
    /// Memory ran out.
    #[error("out of memory")]
    Memory,
}

impl From<AllocError> for JournalWhy {
    ghost use Rattle.std.specs.Prelude.{◌≡◌};
    ghost use Rattle.hm_journal.specs.declared.why.JournalWhy.TheVariants.{Memory};

    ghost from_gives = { λ _ why. why ≡ Memory };

    fn from(_error: AllocError) -> JournalWhy {
        JournalWhy::Memory
    }
}

impl<T: Drop> From<AllocFailed<T>> for JournalWhy {
    ghost use Rattle.std.specs.Prelude.{◌≡◌};
    ghost use Rattle.hm_journal.specs.declared.why.JournalWhy.TheVariants.{Memory};

    ghost from_gives = { λ _ why. why ≡ Memory };

    fn from(_error: AllocFailed<T>) -> JournalWhy {
        JournalWhy::Memory
    }
}
