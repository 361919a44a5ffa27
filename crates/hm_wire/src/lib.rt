//! Fields of bytes: numbers, the lowest byte first, and texts after their length. Each value has one spelling.
#![tactic(auto)]

mod fault;
pub mod laws;
mod put;
mod reader;

pub use fault::WireFault;
pub use put::{put_byte, put_text, put_u16, put_u32, put_u64};
pub use reader::Reader;
