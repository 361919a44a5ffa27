//! The handler of splits and merges.
#![tactic(auto)]

mod hands;

pub use hands::{SplitHands, SplitKinds};
