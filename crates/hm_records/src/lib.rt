//! What a journal says, kept so that nothing is searched for: its procedures, catalog, steps to undo, places and servers, the
//! procedures of nonces, the region ids that were drawn, and the sheets of each edition. Each entry is taken in at the cost of
//! what it holds and touches.
#![tactic(auto)]

mod blank;
mod book;
mod fleet;
mod ids;
pub mod laws;
mod lists;
mod made;
mod named;
mod nonces;
mod parts;
mod records;
mod regions;
mod rows;
mod steps;

pub use book::stepper_of;
pub use hm_views::views::table_of_request;
pub use ids::new_ids;
pub use parts::Parts;
pub use records::Records;
