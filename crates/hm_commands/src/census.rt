//! What is counted in a cluster.
ghost use Rattle.std.specs.Prelude.{◌≡◌, length, count_by};
ghost use Rattle.std.specs.Option.{option_copied};
ghost use Rattle.hm_places.specs.Places.{place_in};
ghost use Rattle.hm_world.specs.Scene.{past_in};
ghost use Rattle.hm_commands.specs.Census.{census_of, is_opened, region_of_row, regions_among};
ghost use Rattle.hm_commands.specs.View.{scene_in};

use crate::cluster::Cluster;
use hm_catalog::{Catalog, Span};
use hm_data::{CatKey, CatRow, RegionState};
use hm_disk::Disk;
use hm_names::RegionName;
use hm_places::{Places, places_follow};

/// What is counted in a cluster.
#[derive(Clone, Copy, Debug, PartialEq, Eq)]
pub struct Census {
    /// How many procedures were ever made.
    pub procedures: u64,
    /// How many regions have a row.
    pub regions: u64,
    /// How many of these are open.
    pub opened: u64,
}

// The region of a row, where it is a region's.
fn region_in<'a>(key: &'a CatKey, row: &CatRow) -> Option<&'a RegionName>
    ensures { option_copied result ≡ region_of_row (key.now, row.now) }
{
    match (key, row) {
        (
            CatKey::Region(region),
            CatRow::Region {
                range: _,
                status: _,
                parents: _,
            },
        ) => Some(region),
        _ => None,
    }
}

// How many regions have a row, and how many of these are open.
fn count_regions(catalog: &Catalog, places: &Places) -> (u64, u64)
    ensures regions { result.0 ≡ length (regions_among catalog.now.rows) }
    ensures opened { result.1 ≡ count_by (is_opened (place_in places.now.places)) (regions_among catalog.now.rows) }
{
    let _most = catalog.len();
    let mut regions = 0;
    let mut opened = 0;
    for (key, row) in catalog.rows_of(Span::AllRegions) {
        if let Some(region) = region_in(key, row) {
            regions += 1;
            if places.of(region).state == RegionState::Opened {
                opened += 1;
            }
        }
    }
    (regions, opened)
}

impl<D: Disk> Cluster<D> {
    /// Counts its procedures, its regions, and those of them that are open.
    pub fn census(&self) -> Census
        ensures { result ≡ census_of (past_in (scene_in self.now)) }
    {
        places_follow();
        let state = self.world.state();
        let (regions, opened) = count_regions(state.catalog(), state.places());
        Census {
            procedures: state.last_pid(),
            regions,
            opened,
        }
    }
}
