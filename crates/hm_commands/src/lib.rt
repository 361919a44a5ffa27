//! The commands of a script, as a cluster answers them.
#![tactic(auto)]

mod answer;
mod answering;
mod balancing;
mod census;
mod cluster;
mod fleet;
mod hands;
mod laws;
mod live;
mod offered;
mod piece;
mod requests;
mod row_names;
mod tables;
mod tasks;
mod telling;
mod text;

pub use answer::{Answer, Refusal};
pub use census::Census;
pub use cluster::Cluster;
pub use hands::hands_agree;
pub use laws::commands_add_their_own;
pub use offered::Offered;
pub use piece::Piece;
pub use text::append_all;
