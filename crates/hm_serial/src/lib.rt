//! What holds of every legal journal: the catalog is that of the deeds, one after another. Each function is a law: its
//! contract is proved, and its body has nothing to do.
#![tactic(auto)]

mod laws;

pub use laws::{
    catalog_is_serial, deeds_apply, edits_are_covered, failure_leaves_all, settled_catalog_is_serial,
    undos_tell,
};
