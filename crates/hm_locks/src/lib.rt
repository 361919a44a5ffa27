//! What procedures lock: what each asks for, and who of those that are enlisted holds what it asks for.
#![tactic(auto)]

mod asking;
mod book;
mod conflicts;
mod desks;
mod draft;
mod entry;
mod key;
pub mod laws;
mod order;
mod pages;
mod seats;

pub use asking::asks;
pub use book::LockBook;
pub use draft::Draft;
