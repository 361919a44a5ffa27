//! Why nothing is recorded.
use std::alloc::AllocError;
use thiserror::Error;

/// What halted a recorder. It stays halted.
#[derive(Clone, Copy, Debug, PartialEq, Eq)]
pub enum Halt {
    /// The log failed.
    LogFault,
    /// The journal had this many bytes, and the next entry would have passed the hard mark.
    JournalFull(u64),
}

/// Why an entry isn't recorded.
#[derive(Clone, Copy, Debug, PartialEq, Eq, Error)]
pub enum RecordFault {
    /// The log failed in this call.
    #[error("the log failed")]
    LogFault,
    /// The journal has this many bytes, and the entry would pass the hard mark.
    #[error("the journal is full at {0} bytes")]
    JournalFull(u64),
    /// An earlier call halted the recorder.
    #[error("halted")]
    Halted(Halt),
}

/// Why a call that may record an entry did nothing.
#[derive(Clone, Copy, Debug, PartialEq, Eq, Error)]
pub enum HallFault {
    /// The log failed in this call.
    #[error("the log failed")]
    LogFault,
    /// The journal has this many bytes, and the entry would pass the hard mark.
    #[error("the journal is full at {0} bytes")]
    JournalFull(u64),
    /// An earlier call halted the recorder.
    #[error("halted")]
    Halted(Halt),
    /// Memory ran out.
    #[error("out of memory")]
    Memory,
}

impl From<RecordFault> for HallFault {
    ghost use Rattle.std.specs.Prelude.{◌≡◌};
    ghost use Rattle.hm_hall.specs.Faults.{fault_of};

    ghost from_gives = { λ fault why. why ≡ fault_of fault };

    fn from(fault: RecordFault) -> HallFault {
        match fault {
            RecordFault::LogFault => HallFault::LogFault,
            RecordFault::JournalFull(bytes) => HallFault::JournalFull(bytes),
            RecordFault::Halted(why) => HallFault::Halted(why),
        }
    }
}

impl From<AllocError> for HallFault {
    ghost use Rattle.std.specs.Prelude.{◌≡◌};
    ghost use Rattle.hm_hall.specs.declared.fault.HallFault.TheVariants.{Memory};

    ghost from_gives = { λ _ why. why ≡ Memory };

    fn from(_error: AllocError) -> HallFault {
        HallFault::Memory
    }
}
