//! What every legal journal says of a server that no pick goes to any more, as one that is drained: each function is a law. Its
//! contract is proved, and its body has nothing to do.
#![tactic(auto)]

mod laws;

pub use laws::{drained_are_empty, moved_are_elsewhere, none_comes};
