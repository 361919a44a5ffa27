//! Words of a case: numbers, states, causes, and what was told.
use hm_data::{Cause, Goal, RegionState, Status, TableState, Told};
use hm_names::parse_decimal;
use std::process::Abort;

/// A number.
pub fn number(rt: &impl Abort, word: &str) -> u64 {
    parse_decimal(word.as_bytes()).expect(rt, "a number")
}

/// A number of one byte.
pub fn small(rt: &impl Abort, word: &str) -> u8 {
    u8::try_from(number(rt, word)).expect(rt, "a small number")
}

/// The state of a table.
pub fn table_state(word: &str) -> Option<TableState> {
    match word {
        "enabling" => Some(TableState::Enabling),
        "enabled" => Some(TableState::Enabled),
        "disabling" => Some(TableState::Disabling),
        "disabled" => Some(TableState::Disabled),
        _ => None,
    }
}

/// What became of a region.
pub fn status(word: &str) -> Option<Status> {
    match word {
        "live" => Some(Status::Live),
        "split" => Some(Status::Split),
        "merged" => Some(Status::Merged),
        _ => None,
    }
}

/// How far a region is open.
pub fn region_state(word: &str) -> Option<RegionState> {
    match word {
        "offline" => Some(RegionState::Offline),
        "opening" => Some(RegionState::Opening),
        "opened" => Some(RegionState::Opened),
        "closing" => Some(RegionState::Closing),
        "closed" => Some(RegionState::Closed),
        "failed" => Some(RegionState::FailedOpen),
        "abnormal" => Some(RegionState::AbnormallyClosed),
        _ => None,
    }
}

/// What a transit is for.
pub fn goal(word: &str) -> Option<Goal> {
    match word {
        "assign" => Some(Goal::Assign),
        "unassign" => Some(Goal::Unassign),
        "move" => Some(Goal::Move),
        _ => None,
    }
}

/// What a call was answered.
pub fn told(word: &str) -> Option<Told> {
    match word {
        "nothing" => Some(Told::Nothing),
        "opened" => Some(Told::Opened),
        "failed" => Some(Told::FailedOpen),
        "closed" => Some(Told::Closed),
        "gone" => Some(Told::Gone),
        "fenced" => Some(Told::Fenced),
        "laid-out" => Some(Told::LaidOut),
        "refused" => Some(Told::Refused),
        "swept" => Some(Told::Swept),
        _ => None,
    }
}

/// Why a procedure failed.
pub fn cause(word: &str) -> Option<Cause> {
    match word {
        "NsExists" => Some(Cause::NsExists),
        "NsMissing" => Some(Cause::NsMissing),
        "NsNotEmpty" => Some(Cause::NsNotEmpty),
        "TableExists" => Some(Cause::TableExists),
        "TableMissing" => Some(Cause::TableMissing),
        "NotDisabled" => Some(Cause::NotDisabled),
        "NotEnabled" => Some(Cause::NotEnabled),
        "RegionMissing" => Some(Cause::RegionMissing),
        "RegionNotLive" => Some(Cause::RegionNotLive),
        "KeyOutside" => Some(Cause::KeyOutside),
        "NotAdjacent" => Some(Cause::NotAdjacent),
        "LayoutRefused" => Some(Cause::LayoutRefused),
        "Aborted" => Some(Cause::Aborted),
        _ => None,
    }
}
