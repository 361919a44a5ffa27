//! Why a row isn't played.
use std::alloc::{AllocError, AllocFailed};

/// Why a row isn't played.
#[derive(Clone, Copy, Debug, PartialEq, Eq)]
pub enum Fault {
    /// A line of it says nothing that is known.
    Unread,
    Memory,
}

impl From<AllocError> for Fault {
    fn from(_fault: AllocError) -> Fault {
        Fault::Memory
    }
}

impl<T: Drop> From<AllocFailed<T>> for Fault {
    fn from(_fault: AllocFailed<T>) -> Fault {
        Fault::Memory
    }
}
