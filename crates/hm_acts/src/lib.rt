//! What a row of a sheet answers at an input: its act, and what undoes it.
#![tactic(auto)]

mod acts;
mod calls;
mod crashes;
mod merges;
mod namespaces;
mod outs;
mod regions;
mod row;
mod sorts;
mod splits;
mod tables;
mod transits;
mod undo;

pub use row::{picks_at_row, row_out};
pub use sorts::{NO_ROW, editing_kinds, is_check, is_edit};
