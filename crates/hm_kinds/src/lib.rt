//! The part of the law of deeds that knows the kinds and no journal: how far a root is, what its steps and its children
//! do to the catalog, and that who covers a row clashes with everybody who covers or reads it. Each function is a law: its contract
//! is proved, and its body has nothing to do.
#![tactic(auto)]

mod laws;

pub use laws::covers_clash;
