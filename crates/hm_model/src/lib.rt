//! What a journal says: its procedures and their phases, its catalog, what it locks, what a step answers, and which
//! entries may follow one another. Definitions alone, and laws about them; the layers above are proved against these.
#![tactic(auto)]

pub mod laws;
mod lock;
mod merged;
mod standing;

pub use lock::{Ask, Resource};
pub use merged::Merged;
pub use standing::Standing;
