//! The image of a master as frames of a log: each part of it is one entry, and each entry one frame.
#![tactic(auto)]

mod framing;
mod laws;
mod reading;
mod why;

pub use framing::frames_of;
pub use laws::one_image;
pub use reading::parts_of;
pub use why::PartsWhy;
