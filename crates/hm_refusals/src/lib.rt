//! What is answered to those who submit, abort or report, before anything is recorded: each refusal with its cause, in the order
//! of judging. Nothing is searched for, and no memory is taken.
#![tactic(auto)]

mod aborts;
mod reports;
mod submissions;

pub use aborts::{AbortRefused, judge_abort};
pub use reports::{IgnoredWhy, judge_report};
pub use submissions::{Refused, judge_submission};
