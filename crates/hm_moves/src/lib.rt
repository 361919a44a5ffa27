//! Which regions move so that the live servers of a journal have balanced loads.
#![tactic(auto)]

mod moving;

pub use moving::{Move, moves};
