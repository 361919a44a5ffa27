//! What holds of the ids of regions in every legal journal: a region's row has an id that its table has drawn, and procedures
//! name ids from 1 on alone where requests do. Each function is a law: its contract is proved, and its body has nothing to do.
#![tactic(auto)]

mod laws;

pub use laws::{ids_are_named, region_ids_are_drawn};
