//! Workers: each takes tasks from a hall behind a gate, and runs them between two stays, with nothing held.
#![tactic(auto)]

mod door;
mod ended;
mod flushing;
mod pool;
mod registry;
mod serves;
mod stays;
mod working;

pub use door::Door;
pub use ended::WorkEnd;
pub use pool::work_each;
pub use serves::Serves;
pub use working::work;
