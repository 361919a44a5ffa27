//! The image of a journal with nothing unfinished: what it came to, as the parts of a base. Each kind of part is told by its own
//! function, in the order in which the definition has them.
#![tactic(auto)]

mod add;
mod catalog;
mod layouts;
mod roots;
mod servers;
mod whole;
mod why;

pub use whole::image;
pub use why::ImageWhy;
