//! The place that a region of a base may have.
ghost use Rattle.std.specs.Prelude.{◌↔◌, IsTrue};
ghost use Rattle.hm_model.specs.Base.{MayStand};

use hm_data::{Place, RegionState, Status, TableState};

// Whether a base may have a place of a region of this status, whose table is there in this state: it is open at a server, live and
// of an enabled table, or at no server, and didn't fail to open.
pub(crate) fn may_stand(place: &Place, status: Status, state: TableState) -> bool
    ensures { IsTrue result ↔ MayStand place.now status state }
{
    match place.state {
        RegionState::Opened => place.server.is_some()
            && status == Status::Live
            && state == TableState::Enabled,
        RegionState::Offline | RegionState::Closed | RegionState::AbnormallyClosed => {
            place.server.is_none()
        }
        RegionState::Opening | RegionState::Closing | RegionState::FailedOpen => false,
    }
}
