//! Groups of servers: where the regions of a table may be placed, and which servers are drained.
#![tactic(auto)]

mod groups;
mod laws;
mod members;
mod name;
mod picking;
mod why;

pub use groups::Groups;
pub use laws::picks_fit;
pub use why::GroupWhy;
