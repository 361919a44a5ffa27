//! Whether an entry may follow a legal journal: the numbered rules, of all kinds of entries and procedures;
//! and what the next call of a procedure's handler sees.
#![tactic(auto)]

mod aborts;
mod adopts;
mod choice;
mod copies;
mod evaluation;
mod inputs;
mod judge;
pub mod laws;
mod picks;
mod reports;
mod seen;
mod servers;
mod steps;
mod submissions;
mod turns;
mod undos;
mod why;

pub use aborts::is_before_point;
pub use choice::candidate;
pub use hm_sheet::are_sheets;
pub use inputs::step_in;
pub use judge::{allowed, unrefused};
pub use picks::{has_pick, picks_right};
pub use reports::fits_call;
pub use seen::called_by;
pub use steps::may_step;
pub use why::NotAllowed;
