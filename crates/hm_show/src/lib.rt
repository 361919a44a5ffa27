//! The printed tables of a cluster: each is exactly the rendering of a journal.
#![tactic(auto)]

mod json;
mod lines;
mod lock_lines;
mod printed;
mod proc_lines;
mod region_lines;
mod server_lines;
mod words;

pub use printed::{locks, procs, procs_json, regions, servers};
pub use words::{
    Subject, cause_name, cause_of, kind_name, mode_name, place_name, standing_name, state_name,
    status_name,
};
