//! What is found of the places of regions.
ghost use Rattle.std.specs.Prelude.{◌≡◌, ◌++◌, OnOk};
ghost use Rattle.std.specs.List.{flat_map};
ghost use Rattle.std.specs.Option.{option_copied, option_map};
ghost use Rattle.hm_data.specs.declared.place.RegionState.TheVariants as place_is;
ghost use Rattle.hm_model.specs.Standings.{is_live_in};
ghost use Rattle.hm_model.specs.TransitActs.{is_placed, is_state};
ghost use Rattle.hm_server.specs.Actors.{actor_of};
ghost use Rattle.hm_hbck.specs.Found.{of_open, of_place, running_in};

use crate::crew::Crew;
use crate::finding::{Finding, Kind, add_if};
use hm_data::{Place, RegionState};
use hm_names::{RegionName, ServerName};
use hm_places::{Places, Servers};
use hm_server::Actor;
use std::alloc::{AllocError, Global};

// Whether a region is open.
fn is_open(place: &Place) -> bool
    ensures { result ≡ is_state place_is.Opened place.now }
{
    match place.state {
        RegionState::Opened => true,
        _ => false,
    }
}

// Whether a region is being opened or closed, or is open.
pub(crate) fn is_placed(place: &Place) -> bool
    ensures { result ≡ is_placed place.now }
{
    match place.state {
        RegionState::Opening | RegionState::Opened | RegionState::Closing => true,
        _ => false,
    }
}

// Adds what is found where a region is open at a server, which runs or doesn't.
fn add_open(
    alloc: Global,
    actor: Option<&Actor>,
    live: bool,
    region: &RegionName,
    server: &ServerName,
    found: &mut Vec<Finding>,
) -> Result<(), AllocError>
    ensures { OnOk result (found.new.items ≡ found.old.items ++ of_open (option_map actor_of (option_copied actor.entry)) live region.now server.now) }
{
    match actor {
        Some(actor) => {
            let held = actor.holds(region);
            add_if(alloc, !held, Kind::NotHeld, region, server, found)
        }
        None => add_if(alloc, live, Kind::NoActor, region, server, found),
    }
}

// The server of a name that runs.
fn running<'a>(crew: &Crew<'a>, server: &ServerName) -> Option<&'a Actor>
    ensures { option_map actor_of (option_copied result) ≡ running_in (λ actor. actor.now) crew.now.pairs server.now }
{
    match crew.get(server) {
        Some(actor) => Some(*actor),
        None => None,
    }
}

// Adds what is found of the place of a region.
fn add_place(
    alloc: Global,
    servers: &Servers,
    crew: &Crew<'_>,
    region: &RegionName,
    place: &Place,
    found: &mut Vec<Finding>,
) -> Result<(), AllocError>
    ensures { OnOk result (found.new.items ≡ found.old.items ++ of_place (running_in (λ actor. actor.now) crew.now.pairs) (is_live_in servers.now.servers) (region.now, place.now)) }
{
    let Some(server) = &place.server else {
        return Ok(());
    };
    let live = servers.live(server);
    if is_open(place) {
        add_open(alloc, running(crew, server), live, region, server, found)?;
    }
    let dead = is_placed(place) && !live;
    add_if(alloc, dead, Kind::DeadPlace, region, server, found)
}

// Adds what is found of all places.
pub(crate) fn add_places(
    alloc: Global,
    servers: &Servers,
    places: &Places,
    crew: &Crew<'_>,
    found: &mut Vec<Finding>,
) -> Result<(), AllocError>
    ensures { OnOk result (found.new.items ≡ found.old.items ++ flat_map (of_place (running_in (λ actor. actor.now) crew.now.pairs) (is_live_in servers.now.servers)) places.now.places) }
{
    for (region, place) in places.all().iter() {
        add_place(alloc, servers, crew, region, place, found)?;
    }
    Ok(())
}
