//! The world of a master: its journal, the calls and reports that travel, the region servers and the storage, the rolls that
//! replace entries of its own journal by their image, and the stops that leave some of it. Definitions of what may happen and of
//! what is kept, and laws about them: no region is open on two servers that run and aren't fenced, nor are two that overlap,
//! whatever comes. Each function is a law: its contract is proved, and its body has nothing to do.
#![tactic(auto)]

mod laws;

pub use laws::{
    calls_are_answered, carrying_goes_on, claims_are_apart, entries_keep, few_findings_come,
    fleets_fit, held_by_one, layouts_tell, never_twice, opened_are_held, outside_keeps, pairs_keep,
    points_hold, rest_is_the_end, worlds_are_kept,
};
