//! A journal on a disk: its entries as the frames of a log.
#![tactic(auto)]

mod based;
mod first;
mod frame;
mod journal;
mod limits;
mod next;
mod opened;
mod opening;
mod origin;
mod reading;
mod sheets;
mod why;

pub use hm_frames::entries_fit_frames;
pub use journal::Journal;
pub use limits::Limits;
pub use opened::Opening;
pub use why::JournalWhy;
