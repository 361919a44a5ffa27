//! The handler of requests for namespaces and tables.
#![tactic(auto)]

mod hands;

pub use hands::{TableHands, TableKinds};
