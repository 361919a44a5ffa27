//! How often those who are called refuse: at most as often as commands of this run told them to. And what `repeat` counts: at least
//! a call and a report for each report that was recorded. Each function is a law: its contract is proved, and its body has nothing
//! to do.
#![tactic(auto)]

mod laws;

pub use laws::{
    refusals_are_granted, refusals_stay_within, repeats_count_twice_the_reports,
    reports_have_travelled,
};
