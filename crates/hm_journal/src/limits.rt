//! The marks of a journal.

/// How many bytes a journal may have. From the soft mark on no submission is recorded; the hard mark is passed by no
/// entry. It is at least 65,552, so that a first entry fits.
#[derive(Clone, Copy, Debug, PartialEq, Eq)]
pub struct Limits {
    pub soft: u64,
    pub hard: u64,
}
