//! A log of frames over a disk. A frame stands after a gate, one byte, which is opened only once the
//! frame is on the disk. So a stop at any moment leaves the frames that were there, or these and those
//! that were being added. Its frames may be replaced by others, of which a stop leaves the old or the new.
#![tactic(auto)]

mod device;
mod frames;
mod laws;
mod log;
mod moving;
mod open;
mod pieces;
mod read;
mod replacing;
mod run;
mod tail;
mod why;

pub use frames::Frames;
pub use laws::{one_reading, one_verdict};
pub use log::Log;
pub use run::lay_frame;
pub use tail::Cursor;
pub use why::OpenWhy;
