// Where a region stands, and what is told of it.
ghost use Rattle.std.specs.Prelude.{◌≡◌, IfOk, option_copied};
ghost use Rattle.hm_model.specs.TransitActs.{told_place as place_told, is_state as in_state, is_placed as placed, may_open as may, may_open_in as may_in, is_open as opened, lost_if as lost, nowhere as nowhere_in, is_told as told_by, closed_or_lost as closed_if};

use crate::checks::{is_in_state, is_live, status_in, table_state_in};
use crate::lookup::{region_row, table_row};
use hm_data::{CatKey, CatRow, Place, RegionState, TableState, Told};
use hm_names::{Copied, Pid, RegionName};
use std::alloc::{AllocError, Global};

/// A place of no server.
pub fn nowhere(state: RegionState) -> Place
    ensures { result ≡ nowhere_in state }
{
    Place {
        state,
        server: None,
    }
}

/// A place that is told, and Offline where none is.
pub fn told_place(alloc: Global, place: &Option<Place>) -> Result<Place, AllocError>
    ensures { IfOk result (λ p. p ≡ place_told place.now) }
{
    match place {
        None => Ok(nowhere(RegionState::Offline)),
        Some(place) => place.copy(alloc),
    }
}

/// The region is in this state.
pub fn is_state(state: RegionState, place: &Place) -> bool
    ensures { result ≡ in_state state place.now }
{
    place.state.number() == state.number()
}

/// The region counts as its server's.
pub fn is_placed(place: &Place) -> bool
    ensures { result ≡ placed place.now }
{
    is_state(RegionState::Opening, place)
        || is_state(RegionState::Opened, place)
        || is_state(RegionState::Closing, place)
}

fn may_open(table: Option<&CatRow>, region: Option<&CatRow>) -> bool
    ensures { result ≡ may (option_copied table.entry) (option_copied region.entry) }
{
    let state = table_state_in(table);
    is_live(status_in(region))
        && (is_in_state(TableState::Enabled, state) || is_in_state(TableState::Enabling, state))
}

/// The region may be opened, by the rows that a transit reads.
pub fn may_open_in(rows: &[(CatKey, CatRow)], region: &RegionName) -> bool
    ensures { result ≡ may_in rows.now region.now }
{
    may_open(table_row(rows, &region.table), region_row(rows, region))
}

/// The place is open, at a server that isn't fenced.
pub fn is_open(place: &Place, fenced: bool) -> bool
    ensures { result ≡ opened place.now fenced }
{
    is_state(RegionState::Opened, place) && !fenced
}

/// The place that is told is open, at a server that isn't fenced.
pub fn is_open_at(place: &Option<Place>, fenced: bool) -> bool
    ensures { result ≡ opened (place_told place.now) fenced }
{
    match place {
        None => false,
        Some(place) => is_open(place, fenced),
    }
}

/// The place of a region that is lost; none where it isn't.
pub fn lost_if(is_lost: bool) -> Option<Place>
    ensures { result ≡ lost is_lost }
{
    if is_lost {
        Some(nowhere(RegionState::AbnormallyClosed))
    } else {
        None
    }
}

/// One of those that ended told this.
pub fn is_told(told: Told, ends: &[(Pid, Told)]) -> bool
    ensures { result ≡ told_by told ends.now }
{
    for (_, end) in ends {
        if end.number() == told.number() {
            return true;
        }
    }
    false
}

/// The state of a region that was to be closed: it is lost where it wasn't.
pub fn closed_or_lost(is_closed: bool) -> RegionState
    ensures { result ≡ closed_if is_closed }
{
    if is_closed {
        RegionState::Closed
    } else {
        RegionState::AbnormallyClosed
    }
}
