use thiserror::Error;

/// Why a server can't come up.
#[derive(Clone, Copy, Debug, PartialEq, Eq, Error)]
pub enum UpRefused {
    /// A server of its host and port came up with this start code, the greatest there, which isn't below its own.
    #[error("old start {0}")]
    OldStart(u64),
    /// It is live.
    #[error("known")]
    Known,
    /// Memory ran out.
    #[error("memory")]
    Memory,
}

/// Why a server can't go down.
#[derive(Clone, Copy, Debug, PartialEq, Eq, Error)]
pub enum DownRefused {
    /// It never came up.
    #[error("unknown")]
    Unknown,
    /// It isn't live.
    #[error("already down")]
    AlreadyDown,
}
