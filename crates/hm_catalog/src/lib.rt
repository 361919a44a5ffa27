//! The catalog: the rows of namespaces, tables and regions, in the order of their keys, and what a request does to them at
//! once. A key that lost its row keeps its place, so that an edit takes no memory.
#![tactic(auto)]

mod catalog;
mod checks;
mod deeds;
mod edits;
pub mod laws;
mod merges;
mod name;
mod requests;
mod rows;
mod span;

pub use catalog::Catalog;
pub use deeds::{DeedWhy, deed};
pub use name::Name;
pub use requests::wrong_in;
pub use rows::{Regions, Rows};
pub use span::{RowsOf, Span};
