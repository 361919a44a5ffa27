//! What holds of a world in terms of the master's own journal, whose first entries may have been replaced by their image: each
//! function is a law. Its contract is proved, and its body has nothing to do.
#![tactic(auto)]

mod laws;

pub use laws::{fronts_are_own, own_goes_on, own_is_alike, own_is_never_twice, own_points_hold};
