//! A server that is to start.
ghost use Rattle.std.specs.Prelude.{◌≡◌, IfOk};
ghost use Rattle.hm_model.specs.Actors.{begun};
ghost use Rattle.hm_server.specs.Actors.{IsActor, actor_of};
ghost use Rattle.hm_fleet.specs.Crew.{address_of};

use crate::address::Address;
use hm_names::{Copied, ServerName};
use hm_server::Actor;
use std::alloc::{AllocError, Global};
use std::marker::Model;

/// A server that is to start. Contracts see its name.
#[derive(Drop)]
pub struct Newcomer {
    address: Address,
    actor: Actor,
}

impl Model for Newcomer {
    ghost use Rattle.hm_names.specs.Server.{Server};
    ghost use Rattle.hm_fleet.specs.Crew.{IsNewAt};

    ghost Value = { Server };

    ghost view = { λ s. s.actor.name };

    ghost invariant = { λ s. IsNewAt s.address s.actor };
}

impl Newcomer {
    // A server with this name.
    pub(crate) fn new(alloc: Global, server: &ServerName) -> Result<Newcomer, AllocError>
        ensures { IfOk result (λ newcomer. newcomer ≡ server.now) }
    {
        Ok(Newcomer {
            address: Address::of(alloc, server)?,
            actor: Actor::new(alloc, server.copy(alloc)?),
        })
    }

    // Its address, and the server.
    pub(crate) fn parts(self) -> (Address, Actor)
        ensures address { result.0 ≡ address_of self }
        ensures actor { IsActor (begun self) (actor_of result.1) }
    {
        (self.address, self.actor)
    }
}
