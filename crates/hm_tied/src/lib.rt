//! What ties the lists of a scheduler and a lock book to a journal, and what each call and each entry leaves to do. Each
//! function is a law: its contract is proved, and its body has nothing to do.
#![tactic(auto)]

pub mod bounds;
mod laws;

pub use laws::{
    ables_stay, aborts_tie, adopts_tie, available_are_ready, books_tell, claims_tie,
    debts_are_paid, debts_rise, ends_owe, enlisting_ties, fences_one, giving_back_ties, joins_owe,
    keeping_on_owes, less_is_owed, nexts_owe, openings_owe, reports_owe, room_ties, roots_owe,
    servers_owe, steps_owe, undos_owe, wakes_owe,
};
