//! Which regions balancing moves.
ghost use Rattle.std.specs.Prelude.{◌≡◌, ◌<◌, List, [], IfOk, Some, length, map, slice_get, vec_len};
ghost use Rattle.std.specs.Option.{option_copied};
ghost use Rattle.hm_names.specs.Order.{server_cmp};
ghost use Rattle.hm_names.specs.Region.{Region};
ghost use Rattle.hm_names.specs.Server.{Server};
ghost use Rattle.hm_balance.specs.Loads.{AreAmong, IsNamed};
ghost use Rattle.hm_data.specs.declared.place.RegionState.TheVariants as place_is;
ghost use Rattle.hm_model.specs.Standings.{live_servers};
ghost use Rattle.hm_model.specs.TransitActs.{is_state};
ghost use Rattle.hm_places.specs.Chosen.{Rises};
ghost use Rattle.hm_places.specs.Places.{place_in};
ghost use Rattle.hm_moves.specs.Planned.{ArePlanned, chosen};
ghost use Rattle.hm_moves.specs.Opened.{AreOpened, opened_at, region_in};

use hm_balance::{Shift, plan};
use hm_data::RegionState;
use hm_names::{Copied, RegionName, ServerName};
use hm_places::{Places, Servers, places_follow};
use hm_state::State;
use std::alloc::{AllocError, Global};

/// A region that is to go from a server to another.
#[derive(Drop)]
pub struct Move {
    pub region: RegionName,
    pub from: ServerName,
    pub to: ServerName,
}

// The live servers in name order, each with how many regions are open on it, and which.
#[derive(Drop)]
pub(crate) struct Held<'a> {
    pub(crate) loads: Vec<(ServerName, u32)>,
    pub(crate) regions: Vec<Vec<&'a RegionName>>,
}

// Whether a region is open.
fn is_open(places: &Places, region: &RegionName) -> bool
    ensures { result ≡ is_state place_is.Opened (place_in places.now.places region.now) }
{
    match places.of(region).state {
        RegionState::Opened => true,
        _ => false,
    }
}

// The regions that are open on a server, in name order.
fn opened_at<'a>(
    alloc: Global,
    places: &'a Places,
    server: &ServerName,
) -> Result<Vec<&'a RegionName>, AllocError>
    ensures { IfOk result (λ regions. map (λ r. r.now) regions.items ≡ opened_at places.now.places server.now) }
{
    let most = places.load(server) as usize;
    let mut opened = Vec::new(alloc);
    for region in places.on_server(server, most) {
        if is_open(places, region) {
            opened.push(region)?;
        }
    }
    Ok(opened)
}

// The live servers, and the regions that are open on each. A number past 32 bits counts as want of memory.
fn gather<'a>(alloc: Global, servers: &Servers, places: &'a Places) -> Result<Held<'a>, AllocError>
    ensures opened { IfOk result (λ it. AreOpened (opened_at places.now.places) (live_servers servers.now.servers) it.loads.items (map (λ v. map (λ r. r.now) v.items) it.regions.items)) }
{
    let mut loads = Vec::new(alloc);
    let mut regions = Vec::new(alloc);
    for (server, standing) in servers.all().iter() {
        if standing.live {
            let here = opened_at(alloc, places, server)?;
            let Ok(load) = u32::try_from(here.len()) else {
                return Err(AllocError);
            };
            loads.push((server.copy(alloc)?, load))?;
            regions.push(here)?;
        }
    }
    Ok(Held { loads, regions })
}

// Where a server stands among those with loads.
fn place_of(loads: &[(ServerName, u32)], server: &ServerName) -> usize
    requires rise { Rises server_cmp (map (λ load. load.0) loads.now) }
    requires named { IsNamed server.now loads.now }
    ensures within { result < length loads.now }
    ensures found { slice_get (map (λ load. load.0) loads.now) result ≡ Some server.now }
{
    match loads.binary_search_by(|load| load.0.cmp(server)) {
        Ok(at) => at,
        Err(_) => unreachable!(),
    }
}

// The region of a number among those of the server at a place.
fn region_at<'a>(
    regions: &[Vec<&'a RegionName>],
    at: usize,
    number: usize,
) -> Option<&'a RegionName>
    requires { at < length regions.now }
    ensures { option_copied result ≡ region_in (map (λ v. map (λ r. r.now) v.items) regions.now) at number }
{
    regions[at].get(number).copied()
}

// A zero for each server with a load.
fn zeros(alloc: Global, loads: &[(ServerName, u32)]) -> Result<Vec<usize>, AllocError>
    ensures each { IfOk result (λ v. v.items ≡ map (λ load. 0) loads.now) }
    ensures many { IfOk result (λ v. vec_len v ≡ length loads.now) }
{
    loads.iter().map(|_| 0).collect(alloc)
}

// The moves of shifts: each takes the next region of its server.
fn choose(alloc: Global, held: &Held<'_>, shifts: Vec<Shift>) -> Result<Vec<Move>, AllocError>
    requires rise { Rises server_cmp (map (λ load. load.0) held.now.loads.items) }
    requires among { AreAmong held.now.loads.items shifts.items }
    requires same { vec_len held.now.regions ≡ vec_len held.now.loads }
    ensures { IfOk result (λ moves. (opened : Server → List Region) → (servers : List Server) → AreOpened opened servers held.now.loads.items (map (λ v. map (λ r. r.now) v.items) held.now.regions.items) → moves.items ≡ chosen opened [] shifts.items) }
{
    let mut next = zeros(alloc, &held.loads)?;
    let mut moves = Vec::new(alloc);
    let _most = shifts.len();
    for Shift { from, to } in shifts {
        let at = place_of(&held.loads, &from);
        let number = next[at];
        next[at] = number + 1;
        match region_at(&held.regions, at, number) {
            Some(region) => moves.push(Move {
                region: region.copy(alloc)?,
                from,
                to,
            })?,
            None => {}
        }
    }
    Ok(moves)
}

/// How many shifts the plan for the live servers has, and the moves that they make.
pub fn moves(alloc: Global, state: &State) -> Result<(u64, Vec<Move>), AllocError>
    ensures { IfOk result (λ r. ArePlanned state.now.past r.0 r.1.items) }
{
    places_follow();
    let servers = state.servers();
    let _rising = servers.all().len();
    let held = gather(alloc, servers, state.places())?;
    let shifts = plan(alloc, &held.loads)?;
    let count = shifts.len() as u64;
    Ok((count, choose(alloc, &held, shifts)?))
}
