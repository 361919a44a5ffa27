//! A disk: what its reads give, and what a stop may leave of it.
#![tactic(auto)]

mod anchor;
mod cut;
mod disk;
mod file;
mod memory;
mod past;
mod room;

pub use anchor::Anchor;
pub use cut::{Arm, Arming, CutDisk, Limit};
pub use disk::Disk;
pub use file::FileDisk;
pub use memory::{Choice, MemDisk};
