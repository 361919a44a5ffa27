//! What a hall behind a gate is: what hands out the tasks of a master while its log may be out to be written, and what
//! records on a log that is lent.
#![tactic(auto)]

mod hall;
mod laws;
mod lender;
mod recorder;

pub use hall::Hall;
pub use laws::{back_is_decided, lending_is_decided, stops_are_answered_first};
pub use lender::{Lender, Rearm, Writer, Yields};
pub use recorder::Recorder;
