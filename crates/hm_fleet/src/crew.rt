//! The servers that run.
ghost use Rattle.std.specs.Prelude.{◌≡◌, ◌≤◌, IfOk, OnErr, OnOk, None, is_some};
ghost use Rattle.std.specs.Option.{option_copied, option_map};
ghost use Rattle.hm_server.specs.Actors.{actor_of};
ghost use Rattle.hm_world_model.specs.Outside.{answer_of_actor, behind_call, refusing, set_actor};
ghost use Rattle.hm_fleet.specs.Crew.{actors_of, started_in};

use crate::address::Address;
use crate::newcomer::Newcomer;
use crate::slot::{Slot, end_at, named, refuse_at, serve_at};
use hm_data::{Call, ReportMsg};
use hm_index::Index;
use hm_names::ServerName;
use hm_server::Actor;
use std::alloc::{AllocError, Global};
use std::marker::Model;

// The servers that run. Contracts see them by their names, and for how many more there is room.
#[derive(Drop)]
pub(crate) struct Crew {
    // Where each address at which a server ever ran stands in `slots`.
    places: Index<Address, usize>,
    slots: Vec<Slot>,
}

impl Model for Crew {
    ghost use Rattle.std.specs.Prelude.{◌-◌, min, vec_len, vec_capacity};
    ghost use Rattle.hm_fleet.specs.Crew.{CrewView, IsCrew};

    ghost Value = { CrewView };

    ghost view = { λ s. record { places = s.places.pairs; slots = s.slots.items; spare = min s.places.spare (vec_capacity s.slots - vec_len s.slots) } };

    ghost invariant = { λ s. IsCrew s.places.pairs s.slots.items };
}

impl Crew {
    // Nobody runs.
    pub(crate) fn new(alloc: Global) -> Result<Crew, AllocError>
        ensures { IfOk result (λ crew. actors_of crew ≡ (λ server. None)) }
    {
        Ok(Crew {
            places: Index::new(alloc)?,
            slots: Vec::new(alloc),
        })
    }

    // A server, where it runs.
    pub(crate) fn get(&self, server: &ServerName) -> Option<&Actor>
        ensures { option_map actor_of (option_copied result) ≡ actors_of self.now server.now }
    {
        match self.places.get(server) {
            Some(place) => named(&self.slots[*place], server),
            None => None,
        }
    }

    // Makes room for a server more.
    pub(crate) fn reserve(&mut self, alloc: Global) -> Result<(), AllocError>
        ensures actors { actors_of self.new ≡ actors_of self.old }
        ensures room { OnOk result (1 ≤ self.new.spare) }
        ensures kept { self.old.spare ≤ self.new.spare }
    {
        self.places.reserve(alloc, 1)?;
        self.slots.reserve(1)
    }

    // A server starts, in place of any other of its address.
    pub(crate) fn start(&mut self, newcomer: Newcomer)
        requires { 1 ≤ self.old.spare }
        ensures { actors_of self.new ≡ started_in (actors_of self.old) newcomer }
    {
        let (address, actor) = newcomer.parts();
        match self.places.get(&address).copied() {
            Some(place) => {
                self.slots[place] = Some(actor);
            }
            None => {
                let place = self.slots.len();
                self.places.set(address, place);
                self.slots.push_reserved(Some(actor));
            }
        }
    }

    // A server ends, if it runs.
    pub(crate) fn end(&mut self, server: &ServerName)
        ensures actors { actors_of self.new ≡ set_actor (actors_of self.old) server.now None }
        ensures spare { self.new.spare ≡ self.old.spare }
    {
        if let Some(place) = self.places.get(server).copied() {
            end_at(&mut self.slots[place], server);
        }
    }

    // Sets how many of the next opens a server refuses, if it runs.
    pub(crate) fn refuse(&mut self, server: &ServerName, count: u32)
        ensures actors { actors_of self.new ≡ set_actor (actors_of self.old) server.now (option_map (refusing count) (actors_of self.old server.now)) }
        ensures spare { self.new.spare ≡ self.old.spare }
    {
        if let Some(place) = self.places.get(server).copied() {
            refuse_at(&mut self.slots[place], server, count);
        }
    }

    // Has a server serve a call, if it runs.
    pub(crate) fn serve(
        &mut self,
        server: &ServerName,
        call: &Call,
    ) -> Result<Option<ReportMsg>, AllocError>
        ensures report { IfOk result (λ report. report ≡ answer_of_actor (actors_of self.old server.now) call.now) }
        ensures actors { IfOk result (λ report. actors_of self.new ≡ set_actor (actors_of self.old) server.now (behind_call (actors_of self.old server.now) call.now)) }
        ensures kept { OnErr result (actors_of self.new ≡ actors_of self.old) }
        ensures spare { self.new.spare ≡ self.old.spare }
    {
        match self.places.get(server).copied() {
            Some(place) => {
                let report = serve_at(&mut self.slots[place], server, call)?;
                Ok(report)
            }
            None => Ok(None),
        }
    }
}
