//! Who runs at a host and a port.
ghost use Rattle.std.specs.Prelude.{◌≡◌, IfOk, OnErr, None};
ghost use Rattle.std.specs.Option.{option_copied, option_map};
ghost use Rattle.hm_server.specs.Actors.{actor_of};
ghost use Rattle.hm_world_model.specs.Outside.{answer_of_actor, behind_call, refusing, set_actor};
ghost use Rattle.hm_fleet.specs.Crew.{running};

use hm_data::{Call, ReportMsg};
use hm_names::ServerName;
use hm_server::Actor;
use std::alloc::AllocError;

// None where nobody runs.
pub(crate) type Slot = Option<Actor>;

// The server of this name, where it runs there.
pub(crate) fn named<'a>(slot: &'a Slot, server: &ServerName) -> Option<&'a Actor>
    ensures { option_map actor_of (option_copied result) ≡ running slot.now server.now }
{
    match slot {
        Some(actor) if actor.name() == server => Some(actor),
        _ => None,
    }
}

// Has the server of this name serve a call, where it runs there.
pub(crate) fn serve_at(
    slot: &mut Slot,
    server: &ServerName,
    call: &Call,
) -> Result<Option<ReportMsg>, AllocError>
    ensures report { IfOk result (λ report. report ≡ answer_of_actor (running slot.old server.now) call.now) }
    ensures slot { IfOk result (λ report. running slot.new ≡ set_actor (running slot.old) server.now (behind_call (running slot.old server.now) call.now)) }
    ensures kept { OnErr result (slot.new ≡ slot.old) }
{
    let Some(actor) = slot else {
        return Ok(None);
    };
    if actor.name() != server {
        return Ok(None);
    }
    let report = actor.serve(call)?;
    Ok(report)
}

// Ends the server of this name, where it runs there.
pub(crate) fn end_at(slot: &mut Slot, server: &ServerName)
    ensures { running slot.new ≡ set_actor (running slot.old) server.now None }
{
    if named(slot, server).is_some() {
        *slot = None;
    }
}

// Sets how many of the next opens the server of this name refuses, where it runs there.
pub(crate) fn refuse_at(slot: &mut Slot, server: &ServerName, count: u32)
    ensures { running slot.new ≡ set_actor (running slot.old) server.now (option_map (refusing count) (running slot.old server.now)) }
{
    let Some(actor) = slot else {
        return;
    };
    if actor.name() == server {
        actor.refuse(count);
    }
}
