//! Each entry that may stand after a journal fits a frame of its log: a law, as a function that does nothing.
#![tactic(auto)]

mod laws;
mod requests;

pub use laws::entries_fit_frames;
pub use requests::{request_fits, server_fits};
