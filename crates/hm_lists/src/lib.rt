//! Doubly linked lists by index, in one vector of nodes: a node goes to the end of a list, is taken from the front, or leaves
//! from the middle, each in one step and in the memory that was taken before. A layer above sees a list of nodes for each number.
#![tactic(auto)]

mod links;
mod lists;
mod node;
mod nodes;
mod steps;

pub use lists::Lists;
pub use nodes::Nodes;
pub use steps::Steps;
