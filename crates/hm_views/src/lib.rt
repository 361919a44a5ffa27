//! What the acts of a sheet are made of: what a procedure's arguments name, which rows a step reads and what stands against
//! a request by them, where a region stands, and the children that stand for regions.
#![tactic(auto)]

pub mod bounds;
pub mod checks;
pub mod closing;
pub mod lookup;
pub mod merges;
pub mod order;
pub mod pieces;
pub mod places;
pub mod ranges;
pub mod regions;
pub mod row;
pub mod views;
