//! The plain types of the master: what the catalog, the journal, the wire and the procedures are made of.
#![tactic(auto)]

mod act;
mod answer;
mod args;
mod call;
mod catalog;
mod entry;
pub mod laws;
mod pair;
mod part;
mod place;
mod record;
mod request;
mod sheet;
mod step;

pub use act::{Act, Back};
pub use answer::{Answer, Cause};
pub use args::{Args, Child};
pub use call::{Call, Peer, ReportMsg, Told, Verb};
pub use catalog::{CatKey, CatRow, Edit, Status, TableState};
pub use entry::Entry;
pub use part::Part;
pub use place::{Goal, Place, RegionState};
pub use record::{Phase, Record};
pub use request::Request;
pub use sheet::{Row, Sheet};
pub use step::{StepIn, StepOut, Turn};
