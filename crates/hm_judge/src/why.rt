//! Why an entry is refused.

use thiserror::Error;

/// Why an entry isn't allowed.
#[derive(Clone, Copy, Debug, PartialEq, Eq, Error)]
pub enum NotAllowed {
    /// It breaks the rule of this number, and none of a lower number.
    #[error("rule {0}")]
    Rule(u8),
    /// Memory ran out before that was known.
    #[error("memory")]
    Memory,
}
