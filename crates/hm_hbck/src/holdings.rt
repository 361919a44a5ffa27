//! The regions that are held, and what is found of each.
ghost use Rattle.std.specs.Prelude.{◌≡◌, ◌++◌, IfOk, OnOk, false, is_none};
ghost use Rattle.std.specs.List.{flat_map};
ghost use Rattle.std.specs.Option.{option_copied};
ghost use Rattle.hm_model.specs.Places.{is_at};
ghost use Rattle.hm_places.specs.Places.{place_in};
ghost use Rattle.hm_places.specs.Servers.{is_fenced_in};
ghost use Rattle.hm_ranges.specs.Live.{live_in};
ghost use Rattle.hm_server.specs.Actors.{AreHeldBy, actor_of, held_in};
ghost use Rattle.hm_hbck.specs.Found.{AllAreHeld, all_held, held_at, held_by, hold_of, holds_of, of_hold};

use crate::finding::{Finding, Kind, add_if};
use crate::places::is_placed;
use hm_catalog::{Catalog, Name};
use hm_data::{CatRow, Place};
use hm_names::{RegionName, ServerName};
use hm_places::{Places, Servers};
use hm_ranges::live_range;
use hm_server::Actor;
use std::alloc::{AllocError, Global};

// A region at a server that holds it and isn't fenced, with the region's row.
#[derive(Clone, Copy)]
pub(crate) struct Holding<'a> {
    pub(crate) region: &'a RegionName,
    pub(crate) server: &'a ServerName,
    pub(crate) row: Option<&'a CatRow>,
}

// Adds what a server holds.
fn add_held<'a>(
    catalog: &'a Catalog,
    actor: &'a Actor,
    list: &mut Vec<Holding<'a>>,
) -> Result<(), AllocError>
    ensures list { OnOk result (holds_of list.new.items ≡ holds_of list.old.items ++ held_by catalog.now.rows actor.now.name (held_in actor.now.duties)) }
    ensures held { AreHeldBy (actor_of actor.now) (held_in actor.now.duties) }
{
    let server = actor.name();
    for region in actor.held() {
        let row = catalog.get(&Name::Region(region));
        list.push(Holding {
            region,
            server,
            row,
        })?;
    }
    Ok(())
}

// Adds what a server holds, unless it is fenced.
fn add_unless_fenced<'a>(
    catalog: &'a Catalog,
    servers: &Servers,
    actor: &'a Actor,
    list: &mut Vec<Holding<'a>>,
) -> Result<(), AllocError>
    ensures list { OnOk result (holds_of list.new.items ≡ holds_of list.old.items ++ held_at catalog.now.rows (is_fenced_in servers.now.servers) actor.now) }
    ensures held { is_fenced_in servers.now.servers actor.now.name ≡ false → AreHeldBy (actor_of actor.now) (held_in actor.now.duties) }
{
    if servers.fenced(actor.name()) {
        return Ok(());
    }
    add_held(catalog, actor, list)
}

// What servers hold that aren't fenced.
pub(crate) fn holdings<'a>(
    alloc: Global,
    catalog: &'a Catalog,
    servers: &Servers,
    actors: &'a [Actor],
) -> Result<Vec<Holding<'a>>, AllocError>
    ensures list { IfOk result (λ list. holds_of list.items ≡ all_held catalog.now.rows (is_fenced_in servers.now.servers) actors.now) }
    ensures held { OnOk result (AllAreHeld (is_fenced_in servers.now.servers) actors.now) }
{
    let mut list = Vec::new(alloc);
    for actor in actors {
        add_unless_fenced(catalog, servers, actor, &mut list)?;
    }
    Ok(list)
}

// Whether there is no row of a live region.
fn is_dead(row: Option<&CatRow>) -> bool
    ensures { result ≡ is_none (live_in (option_copied row.entry)) }
{
    match row {
        Some(row) => live_range(row).is_none(),
        None => true,
    }
}

// Whether a place is at a server.
fn is_at(place: &Place, server: &ServerName) -> bool
    ensures { result ≡ is_at server.now place.now }
{
    match &place.server {
        Some(other) => is_placed(place) && server == other,
        None => false,
    }
}

// Adds what is found of a region that is held.
fn add_holding(
    alloc: Global,
    places: &Places,
    holding: &Holding<'_>,
    found: &mut Vec<Finding>,
) -> Result<(), AllocError>
    ensures { OnOk result (found.new.items ≡ found.old.items ++ of_hold (place_in places.now.places) (hold_of holding.now)) }
{
    let Holding {
        region,
        server,
        row,
    } = *holding;
    let stray = !is_at(places.of(region), server);
    add_if(alloc, stray, Kind::Stray, region, server, found)?;
    add_if(alloc, is_dead(row), Kind::NoRow, region, server, found)
}

// Adds what is found of each.
pub(crate) fn add_holdings(
    alloc: Global,
    places: &Places,
    list: &[Holding<'_>],
    found: &mut Vec<Finding>,
) -> Result<(), AllocError>
    ensures { OnOk result (found.new.items ≡ found.old.items ++ flat_map (of_hold (place_in places.now.places)) (holds_of list.now)) }
{
    for holding in list {
        add_holding(alloc, places, holding, found)?;
    }
    Ok(())
}
