//! Which regions move so that the servers' loads are balanced, in as few moves as possible.
#![tactic(auto)]

mod planning;
mod share;
mod shift;

pub use planning::plan;
pub use shift::Shift;
