//! What the events answer.
use hm_hall::HallFault;
use hm_names::Pid;
use hm_places::{DownRefused, UpRefused};
use hm_refusals::IgnoredWhy;
use thiserror::Error;

/// A submission that is accepted: its root, and whether it was submitted before.
#[derive(Clone, Copy, Debug, PartialEq, Eq)]
pub struct Accepted {
    pub pid: Pid,
    pub repeated: bool,
}

/// What became of a report.
#[derive(Clone, Copy, Debug, PartialEq, Eq)]
pub enum Heard {
    /// It was recorded, at this place behind the base.
    Accepted(u64),
    Ignored(IgnoredWhy),
}

/// Why a server doesn't come up.
#[derive(Clone, Copy, Debug, PartialEq, Eq, Error)]
pub enum UpWhy {
    #[error("{0}")]
    Up(UpRefused),
    #[error("{0}")]
    Fault(HallFault),
}

/// Why a server doesn't go down.
#[derive(Clone, Copy, Debug, PartialEq, Eq, Error)]
pub enum DownWhy {
    #[error("{0}")]
    Down(DownRefused),
    #[error("{0}")]
    Fault(HallFault),
}
