use thiserror::Error;

/// Why a field can't be read, with the place of the field.
#[derive(Clone, Copy, Debug, PartialEq, Eq, Drop, Error)]
pub enum WireFault {
    /// The field runs past the end. A text's length and its bytes are one field.
    #[error("the field at {0} runs past the end")]
    Short(u64),
    /// A text is longer than it may be, and doesn't run past the end.
    #[error("the text at {0} is too long")]
    Range(u64),
}
