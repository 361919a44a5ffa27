//! What holds of the regions of every legal journal: in the catalog of the deeds the live ones of a table never overlap and
//! cover every key; in the catalog of now they never overlap, at any moment, and cover every key of each table that nobody asks
//! for alone. Each function is a law: its contract is proved, and its body has nothing to do.
#![tactic(auto)]

mod laws;

pub use laws::{
    deeds_keep_ranges, live_ranges_have_keys, live_regions_cover, live_regions_never_overlap,
    merges_keep_ranges, missing_tables_are_bare,
};
