//! Where each region is.
ghost use Rattle.std.specs.Prelude.{◌≡◌, ℕ, ◌+◌, ◌≤◌, [], IfOk, OnOk, Some, if◌then◌else◌, take};
ghost use Rattle.std.specs.Ordering.{is_eq};
ghost use Rattle.hm_names.specs.Order.{region_cmp};
ghost use Rattle.hm_names.specs.Region.{Region};
ghost use Rattle.hm_index.specs.Index.{find, placed};
ghost use Rattle.hm_model.specs.Keys.{same_region};
ghost use Rattle.hm_model.specs.Loads.{load_in, regions_at};
ghost use Rattle.hm_places.specs.Places.{place_in};

use crate::chosen::add_at;
use crate::held::{OnServer, Rows, let_go, run_of, spot_for};
use hm_data::{Place, RegionState};
use hm_index::{Index, View};
use hm_names::{RegionName, ServerName};
use std::alloc::{AllocError, Global};
use std::marker::Model;

/// The places of regions. Contracts see the regions that have one, in name order, and for how many more there is room.
#[derive(Drop)]
pub struct Places {
    rows: Rows,
    // The numbers of the rows at a server, by server and then by region.
    held: Vec<u32>,
    // The place of a region that has none.
    offline: Place,
}

impl Model for Places {
    ghost use Rattle.std.specs.Prelude.{◌≡◌, ◌-◌, ◌+◌, min, vec_len, vec_capacity};
    ghost use Rattle.hm_names.specs.Order.{region_cmp};
    ghost use Rattle.hm_data.specs.declared.place.RegionState.TheVariants as place_is;
    ghost use Rattle.hm_index.specs.Index.{IsRising};
    ghost use Rattle.hm_model.specs.TransitActs.{nowhere};
    ghost use Rattle.hm_places.specs.Places.{PlacesView, ArePlaces, AreHeld};

    ghost Value = { PlacesView };

    ghost view = { λ s. record { places = s.rows.pairs; spare = min s.rows.spare (vec_capacity s.held - vec_len s.held); room = s.rows.room + vec_capacity s.held } };

    ghost invariant = { λ s. ArePlaces s.rows.came s.rows.pairs s.held.items s.offline };
}

impl Places {
    /// No region has a place.
    pub fn new(alloc: Global) -> Result<Places, AllocError>
        ensures { IfOk result (λ places. places.places ≡ []) }
    {
        Ok(Places {
            rows: Index::new(alloc)?,
            held: Vec::new(alloc),
            offline: Place {
                state: RegionState::Offline,
                server: None,
            },
        })
    }

    /// The place of a region: Offline without a server where none was set.
    pub fn of(&self, region: &RegionName) -> &Place
        ensures { result.now ≡ place_in self.now.places region.now }
    {
        match self.rows.get(region) {
            Some(place) => place,
            None => &self.offline,
        }
    }

    /// Makes room for so many regions more.
    pub fn reserve(&mut self, alloc: Global, regions: u64) -> Result<(), AllocError>
        ensures places { self.new.places ≡ self.old.places }
        ensures room { OnOk result (regions ≤ self.new.spare) }
        ensures kept { self.old.spare ≤ self.new.spare }
    {
        self.rows.reserve(alloc, regions as usize)?;
        self.held.reserve(regions as usize)
    }

    /// Gives a region a place, in the room that was made for it.
    pub fn set(&mut self, region: RegionName, place: Place)
        requires { 1 ≤ self.old.spare }
        ensures order { self.new.places ≡ placed region_cmp self.old.places region place }
        ensures places { (other : Region) → place_in self.new.places other ≡ (if same_region region other then place else place_in self.old.places other) }
        ensures spare { self.old.spare ≤ self.new.spare + 1 }
        ensures room { self.new.room ≡ self.old.room }
    {
        let_go(&self.rows, &mut self.held, &region);
        let spot = spot_for(&self.rows, &self.held, &region, &place);
        let number = self.rows.put(region, place);
        add_at(&mut self.held, spot, number);
    }

    /// How many regions are being opened, are open or are being closed at a server.
    pub fn load(&self, server: &ServerName) -> u64
        ensures { result ≡ load_in self.now.places server.now }
    {
        run_of(&self.rows, &self.held, server).len() as u64
    }

    /// The first of these regions in name order, at most so many.
    pub fn on_server(&self, server: &ServerName, most: usize) -> OnServer<'_>
        ensures { result ≡ take most (regions_at self.now.places server.now) }
    {
        let run = run_of(&self.rows, &self.held, server);
        OnServer::new(&self.rows, run, most)
    }

    /// All regions that have a place, in name order, with their places.
    pub fn all(&self) -> View<'_, RegionName, Place>
        ensures { result ≡ self.now.places }
    {
        self.rows.view()
    }
}
