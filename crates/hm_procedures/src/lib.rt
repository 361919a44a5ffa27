//! The procedures of a journal as they stand, with what their phases need. Each entry is taken in at the cost of what it makes
//! and touches: no call goes over all procedures, and a tree is gone over once, when it is rolled back.
#![tactic(auto)]

mod book;
mod calls;
mod changes;
mod ends;
mod journal;
mod kept;
mod kinds;
mod old;
mod phases;
mod procedures;
mod trees;

pub use journal::Journal;
pub use kinds::kind_asked;
pub use procedures::Procedures;
