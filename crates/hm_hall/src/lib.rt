//! What records the entries of a journal, as those see it who make them, and what hands out the tasks of a master.
#![tactic(auto)]

mod fault;
mod hall;
mod laws;
mod recorder;
mod taken;

pub use fault::{HallFault, Halt, RecordFault};
pub use hall::{Hall, Task};
pub use laws::{parts_stand_first, recording_is_decided, sheets_stay, stops_are_answered_first};
pub use recorder::Recorder;
pub use taken::{Given, Taken};
