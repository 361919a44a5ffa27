//! The servers that run, to be found by their names.
ghost use Rattle.std.specs.Prelude.{◌≡◌, IfOk, OnOk, Some, if◌then◌else◌};
ghost use Rattle.hm_names.specs.Server.{Server};
ghost use Rattle.hm_model.specs.Fleet.{same_server};
ghost use Rattle.hm_server.specs.Actors.{actor_of};
ghost use Rattle.hm_hbck.specs.Findings.{running};
ghost use Rattle.hm_hbck.specs.Found.{running_in};

use hm_index::Index;
use hm_names::{Copied, ServerName};
use hm_server::Actor;
use std::alloc::{AllocError, Global};

pub(crate) type Crew<'a> = Index<ServerName, &'a Actor>;

// The servers by their names; the first of those of one name.
pub(crate) fn crew_of(alloc: Global, actors: &[Actor]) -> Result<Crew<'_>, AllocError>
    ensures { IfOk result (λ crew. (server : Server) → running_in (λ actor. actor.now) crew.pairs server ≡ running actors.now server) }
{
    let mut crew = Index::new(alloc)?;
    let mut at = actors.len();
    while at > 0 {
        at -= 1;
        enlist(alloc, &actors[at], &mut crew)?;
    }
    Ok(crew)
}

// Puts a server in, in place of one of its name.
fn enlist<'a>(alloc: Global, actor: &'a Actor, crew: &mut Crew<'a>) -> Result<(), AllocError>
    ensures { OnOk result ((server : Server) → running_in (λ actor. actor.now) crew.new.pairs server ≡ (if same_server actor.now.name server then Some (actor_of actor.now) else running_in (λ actor. actor.now) crew.old.pairs server)) }
{
    let name = actor.name().copy(alloc)?;
    crew.reserve(alloc, 1)?;
    crew.set(name, actor);
    Ok(())
}
