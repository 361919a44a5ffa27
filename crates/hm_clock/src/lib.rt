//! A clock: timers of procedures whose numbers count from a first one on.
#![tactic(auto)]

mod clock;

pub use clock::Clock;
