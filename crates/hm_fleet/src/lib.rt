//! What is outside a master: the servers that run, the storage, the calls and the reports, and what of these travels.
#![tactic(auto)]

mod address;
mod crew;
mod fleet;
mod mail;
mod newcomer;
mod slot;

pub use fleet::Fleet;
pub use newcomer::Newcomer;
