//! The script: its commands, how its lines are read, and how commands are printed.
#![tactic(auto)]

mod bad;
mod command;
mod keyword;
mod line;
mod printing;
mod program;
mod reading;
mod script;
mod words;

pub use bad::{Bad, Why};
pub use command::{Command, Order};
pub use printing::print;
pub use program::Program;
pub use script::{Commands, Pair, Run, parse, parse_for};
