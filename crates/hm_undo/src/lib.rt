//! The steps that may still be undone: one stack for each root. A step is pushed, and popped when it was undone, in memory that
//! was taken before; a root that ends is forgotten. No call for one root changes what another root has.
#![tactic(auto)]

pub mod laws;
mod slot;
mod stack;

pub use slot::Step;
pub use stack::Stack;
