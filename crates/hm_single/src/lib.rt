//! What every legal journal says of the calls about a region and of its place: one transit at a time works on it, its
//! place is that of the transit's row and tells of its calls, and an opening finds the earlier ones over, of overlapping
//! regions too. A region has a place only while it is live, and none once its Unassign under a root that asks for it alone
//! has ended. Where a server has to be picked and any is live, one fits. Each function is a law: its contract is proved, and
//! its body has nothing to do.
#![tactic(auto)]

mod laws;

pub use laws::{
    last_calls_are_recorded, live_regions_are_placed, one_transit, openings_are_single,
    openings_over_ranges_are_single, picks_are_there, placed_are_live, places_are_told,
    unassigned_are_unplaced,
};
