use thiserror::Error;

/// Where a sheet is not valid: the lowest row at which it breaks a rule, and the lowest rule that it breaks there. The
/// rules have the numbers 1 to 8, and the row is at most 32.
#[derive(Clone, Copy, Debug, PartialEq, Eq, Error)]
#[error("row {row}: rule {rule}")]
pub struct SheetFault {
    pub row: u8,
    pub rule: u8,
}

/// Why handlers make no registry. The number is a kind.
#[derive(Clone, Copy, Debug, PartialEq, Eq, Error)]
pub enum RegistryFault {
    /// Two sheets have the kind, and no lower kind has two.
    #[error("Twice {0}")]
    Twice(u8),
    /// The master runs the kind, and no sheet has it; each lower kind that it runs has one.
    #[error("Missing {0}")]
    Missing(u8),
    /// Memory ran out.
    #[error("Memory")]
    Memory,
}
