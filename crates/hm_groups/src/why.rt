use thiserror::Error;

/// Why a table isn't put into a group.
#[derive(Clone, Copy, Debug, PartialEq, Eq, Error)]
pub enum GroupWhy {
    /// The group was never set.
    #[error("no group")]
    NoGroup,
    /// Memory ran out.
    #[error("memory")]
    Memory,
}
