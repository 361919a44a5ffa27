//! The executor: each event is one entry that may follow, recorded, or a refusal, which records nothing; a claim is exact. (A server that
//! comes up puts the older one of its address down first, in an entry of its own.)
#![tactic(auto)]

mod aborting;
mod adding;
mod answers;
mod claiming;
mod committing;
mod exec;
mod fleet;
mod hearing;
mod making;
mod parting;
mod submitting;

pub use answers::{Accepted, DownWhy, Heard, UpWhy};
pub use exec::Exec;
pub use fleet::may_come_up;
pub use hm_refusals::{AbortRefused, IgnoredWhy, Refused};
pub use parting::ExecCore;
