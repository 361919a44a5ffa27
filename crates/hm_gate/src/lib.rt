//! A lock that hands a value round in the order of tickets, and knows one history: each item that a seat adds stands
//! once in the one list, at its number, and all outs of the value are owed by seats.
#![tactic(auto)]

mod gate;
mod kept;
mod law;
pub mod laws;
mod plays;
mod seat;
mod view;

pub use gate::Gate;
pub use kept::Kept;
pub use seat::{Held, Seat, SeatOf};
pub use view::{Position, View};
