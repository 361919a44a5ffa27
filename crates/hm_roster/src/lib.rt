//! Who is claimed, who is ready, who waits for what, and who holds which locks: what an executor keeps beside its journal. It
//! follows the journal entry by entry, at the cost of those that an entry lets go on; and it gives whoever can go on.
#![tactic(auto)]

mod abilities;
mod backing;
mod behind;
mod claiming;
mod claims;
mod desk;
mod enlisting;
mod next;
mod opening;
mod places;
mod room;
mod servers;
mod stepping;

pub use desk::Desk;
