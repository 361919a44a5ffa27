//! Entries of the journal as bytes: one spelling for each, and the first fault of bytes that spell none.
#![tactic(auto)]

mod catalog;
mod codes;
mod decoding;
mod encoding;
mod fault;
mod fields;
mod get;
mod items;
pub mod laws;
mod names;
mod parts;
mod put;
mod put_catalog;
mod put_entry;
mod put_fields;
mod put_part;
mod put_steps;
mod requests;
mod sheets;
mod steps;

pub use decoding::decode;
pub use encoding::{encode_into, length};
pub use fault::EntryFault;
