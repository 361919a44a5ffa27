//! The handler of crashes.
#![tactic(auto)]

mod hands;

pub use hands::{CrashHands, CrashKinds};
