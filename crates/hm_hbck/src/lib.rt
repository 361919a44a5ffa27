//! What is inconsistent between a journal and the region servers that run.
#![tactic(auto)]

mod crew;
mod finding;
mod holdings;
mod holes;
mod listed;
mod pairs;
mod places;
mod sorted;

pub use finding::Finding;
pub use listed::findings;
