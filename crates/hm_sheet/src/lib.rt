//! Sheets: which are valid, what their rows answer, and the boxed objects that run them.
#![tactic(auto)]

mod among;
mod check;
mod fault;
mod handler;
mod kinds;
mod learnt;
mod lines;
mod own;
mod plain;
mod registry;
mod rules;
mod valid;
mod walk;
mod whole;

pub use among::{answer, listed, sheet_for};
pub use check::check_sheet;
pub use fault::{RegistryFault, SheetFault};
pub use handler::Handler;
pub use kinds::{all_kinds, is_kind};
pub use own::{Hands, Kinds, own_sheet};
pub use plain::{needs_pick, plain_step};
pub use registry::Registry;
pub use valid::Valid;
pub use whole::{are_sheets, valid_copies};
