//! Region servers and the storage, as they serve the calls of a master.
#![tactic(auto)]

mod actor;
mod duties;
mod duty;
mod held;
mod storage;

pub use actor::Actor;
pub use duty::Duty;
pub use held::Held;
pub use storage::StorageActor;
