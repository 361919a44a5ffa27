//! Runs a script of commands over a log.
#![tactic(auto)]

mod answering;
mod checking;
mod ending;
mod generating;
mod last_line;
mod laws;
mod nowhere;
mod opening;
mod piece;
mod status;
mod store;
mod talking;
mod words;

pub use ending::{Ended, run, run_within};
pub use hm_commands::hands_agree;
pub use hm_script::{Bad, Why};
pub use laws::{
    each_status_has_a_cause, refusals_are_granted, repeats_count_twice_the_reports, right_or_wrong,
};
pub use status::{LogWhy, RunStatus};
pub use words::{Form, form_of, log_path};
