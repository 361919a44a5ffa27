//! A base: what a log may begin with in place of its start. Its parts come to the records of the journal that begins with them.
#![tactic(auto)]

mod base;
mod cover;
mod fits;
mod live;
mod order;
mod reader;
mod roots;
mod rows;
mod served;
mod sheets;
mod spaces;
mod stands;
mod whole;
mod why;

pub use base::read_base;
pub use why::BaseWhy;
