//! The script that makes a cluster of so many regions, by numbers that a seed gives.
#![tactic(auto)]

mod names;
mod script;

pub use script::{generate, generated_are_own};
