//! Tables of tests, as programs read them. A table is text in blocks of lines, with empty lines between them. A line begins with a
//! word, and what stands after its space belongs to that word. A line that begins with `#` says something to readers alone. A block
//! that begins with `part` is the head of a part, and its lines hold in each row of it; each other block is a row. Where a row has
//! lines of a word, those of its head with that word count no more.
#![tactic(auto)]

mod bytes;
mod fault;
mod names;
mod rows;
mod said;
mod table;

pub use bytes::add_plain;
pub use fault::Fault;
pub use names::Names;
pub use rows::{Row, behind, number, numbers};
pub use said::{Wrong, first_wrong};
pub use table::{Player, complain, play_tables};
