//! The state of a journal: its number of entries, and what they and its base say, to be found fast.
#![tactic(auto)]

mod based;
mod ready;
mod room;
mod sheets;
mod state;

pub use ready::Ready;
pub use state::State;
