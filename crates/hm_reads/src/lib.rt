//! What a step of a procedure reads of the catalog: rows of the keys that its arguments name, in key order.
#![tactic(auto)]

mod args;
mod found;
pub mod laws;

pub use args::read;
