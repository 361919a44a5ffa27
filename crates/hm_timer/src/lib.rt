//! Timers: a wheel of 512 lists of procedures.
#![tactic(auto)]

mod wheel;

pub use wheel::Wheel;
