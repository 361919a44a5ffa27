//! Pairs of a key and a value that are only added, found by their keys and told in the order of their keys.
#![tactic(auto)]

mod block;
mod index;
mod order;
mod room;
mod sought;
mod view;

pub use index::Index;
pub use room::put_at;
pub use sought::Sought;
pub use view::{Iter, View};
