//! Where the procedures of many roots stand: ready, waiting for what another one locks, suspended, or waiting for a live
//! server; and who of the ready comes next.
#![tactic(auto)]

mod changes;
mod queue;
mod sched;

pub use queue::Queue;
pub use sched::Sched;
