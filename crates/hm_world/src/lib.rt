//! A world: the executor of a journal, the region servers and the storage as they run, and what travels between them. No
//! region is ever held by two servers that run and aren't fenced.
#![tactic(auto)]

mod acting;
mod carrying;
mod due;
mod hall;
mod numbers;
mod opening;
mod shown;
mod taking;
mod world;

pub use hm_hall::Task;
pub use world::World;
