//! The handler of transits.
#![tactic(auto)]

mod hands;

pub use hands::{TransitHands, TransitKinds};
