//! The ranges of a table's live regions: whether one more fits among them, and the least key that they leave out.
#![tactic(auto)]

mod laws;
mod live;
mod ranged;
mod ranges;
mod spot;
mod sweep;

pub use laws::ranges_tell;
pub use live::{live_range, live_ranges};
pub use ranged::Ranged;
pub use ranges::Ranges;
pub use sweep::least_left_out;
