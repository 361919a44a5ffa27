//! What every legal journal says of the work that is left, of what a tree costs, and of what a crash leaves: each function is a law. Its contract is
//! proved, and its body has nothing to do.
#![tactic(auto)]

mod laws;

pub use laws::{cost_bound, costs_are_met, crashes_empty, each_tree_goes_on};
