//! Where regions are, and which servers there are.
#![tactic(auto)]

mod chosen;
mod held;
mod laws;
mod picking;
mod places;
mod refused;
mod servers;
mod up;

pub use held::OnServer;
pub use laws::{places_follow, servers_follow};
pub use places::Places;
pub use refused::{DownRefused, UpRefused};
pub use servers::Servers;
