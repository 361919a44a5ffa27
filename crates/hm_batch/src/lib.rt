//! Frames that gather, and go to a log together.
#![tactic(auto)]

mod batch;
mod laws;
mod pieces;

pub use batch::Batch;
pub use laws::pieces_are_full;
