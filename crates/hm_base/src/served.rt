//! Whether the regions that are open are so at live servers.
ghost use Rattle.std.specs.Prelude.{◌↔◌, IsTrue};
ghost use Rattle.std.specs.List.{AllByRecursion};
ghost use Rattle.hm_model.specs.Standings.{is_live_in};
ghost use Rattle.hm_base.specs.Whole.{IsServed};

use hm_data::{Place, RegionState};
use hm_places::{Places, Servers};

// Whether a region that has this place isn't open, or is so at a live server, and isn't being opened or closed.
fn is_served(servers: &Servers, place: &Place) -> bool
    ensures { IsTrue result ↔ IsServed (is_live_in servers.now.servers) place.now }
{
    match place.state {
        RegionState::Opening | RegionState::Closing => false,
        RegionState::Opened => match &place.server {
            Some(server) => servers.live(server),
            None => false,
        },
        _ => true,
    }
}

// Whether each region that has a place is so.
pub(crate) fn are_served(servers: &Servers, places: &Places) -> bool
    ensures { IsTrue result ↔ AllByRecursion (λ row. IsServed (is_live_in servers.now.servers) row.1) places.now.places }
{
    for (_region, place) in places.all().iter() {
        if !is_served(servers, place) {
            return false;
        }
    }
    true
}
