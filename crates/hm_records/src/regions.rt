//! The places of regions.
ghost use Rattle.std.specs.Prelude.{◌≡◌, ◌+◌, ◌≤◌, ◌∷◌, IfOk, Some};
ghost use Rattle.std.specs.Option.{option_copied};
ghost use Rattle.hm_model.specs.Places.{region_if};
ghost use Rattle.hm_model.specs.Tree.{node_of};
ghost use Rattle.hm_model.specs.Loads.{places_of};
ghost use Rattle.hm_places.specs.Laws.{part_places as places_by, placed_now as placed_by};

use hm_data::{Entry, Part, Place};
use hm_names::{Copied, Pid, RegionName};
use hm_places::{Places, places_follow};
use hm_procedures::Procedures;
use hm_views::views::region_of;
use std::alloc::{AllocError, Global};

// The one region that a procedure works on, by its number.
fn region_at(past: &Procedures, pid: Pid) -> Option<&RegionName>
    ensures { option_copied result ≡ region_if (node_of past.now.past pid.0) }
{
    match past.find(pid) {
        Some(record) => region_of(&record.args),
        None => None,
    }
}

type Placed = Option<(RegionName, Place)>;

// A region with a place, in memory of their own.
fn placed_at(alloc: Global, region: &RegionName, place: &Place) -> Result<Placed, AllocError>
    ensures { IfOk result (λ placed. placed ≡ Some (region.now, place.now)) }
{
    Ok(Some((region.copy(alloc)?, place.copy(alloc)?)))
}

// The place that a part of a base gives its region.
fn part_places(alloc: Global, part: &Part) -> Result<Placed, AllocError>
    ensures { IfOk result (λ placed. placed ≡ places_by part.now) }
{
    match part {
        Part::Region {
            region,
            range: _,
            status: _,
            parents: _,
            place,
        } => placed_at(alloc, region, place),
        _ => Ok(None),
    }
}

// The place that an entry gives a region.
pub(crate) fn placed_now(
    alloc: Global,
    past: &Procedures,
    entry: &Entry,
) -> Result<Option<(RegionName, Place)>, AllocError>
    ensures { IfOk result (λ placed. placed ≡ placed_by past.now.past entry.now) }
{
    match entry {
        Entry::Step { pid, pick: _, out } => match (region_at(past, *pid), &out.place) {
            (Some(region), Some(place)) => placed_at(alloc, region, place),
            _ => Ok(None),
        },
        Entry::Base { part } => part_places(alloc, part),
        _ => Ok(None),
    }
}

// Takes in the place that an entry gives a region.
pub(crate) fn set_place(
    places: &mut Places,
    past: &Procedures,
    entry: &Entry,
    placed: Option<(RegionName, Place)>,
)
    requires places { places.old.places ≡ places_of past.now.past }
    requires placed { placed ≡ placed_by past.now.past entry.now }
    requires room { 1 ≤ places.old.spare }
    ensures places { places.new.places ≡ places_of (entry.now ∷ past.now.past) }
    ensures spare { places.old.spare ≤ places.new.spare + 1 }
    ensures room { places.new.room ≡ places.old.room }
{
    places_follow();
    let _past = past;
    let _entry = entry;
    if let Some((region, place)) = placed {
        places.set(region, place);
    }
}
