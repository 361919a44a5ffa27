//! The calls of procedures.
ghost use Rattle.std.specs.Prelude.{◌≡◌, IfOk, Some};
ghost use Rattle.hm_model.specs.Reports.{call_if, peer_in};
ghost use Rattle.hm_model.specs.Verbs.{verb_in};

use hm_data::{Args, Call, Peer, Verb};
use hm_names::{Copied, Pid};
use std::alloc::{AllocError, Global};

// Whom a procedure with these arguments calls.
fn peer_of(alloc: Global, args: &Args) -> Result<Peer, AllocError>
    ensures { IfOk result (λ peer. peer ≡ peer_in args.now) }
{
    match args {
        Args::AssignCall { region: _, server } => Ok(Peer::Server(server.copy(alloc)?)),
        Args::CloseCall { region: _, server } => Ok(Peer::Server(server.copy(alloc)?)),
        _ => Ok(Peer::Storage),
    }
}

// What a procedure with these arguments asks.
fn verb_of(alloc: Global, args: &Args) -> Result<Option<Verb>, AllocError>
    ensures { IfOk result (λ verb. verb ≡ verb_in args.now) }
{
    match args {
        Args::AssignCall { region, server: _ } => {
            Ok(Some(Verb::AssignRegion(region.copy(alloc)?)))
        }
        Args::CloseCall { region, server: _ } => Ok(Some(Verb::CloseRegion(region.copy(alloc)?))),
        Args::FenceCall { server } => Ok(Some(Verb::Fence(server.copy(alloc)?))),
        Args::LayoutCall { root } => Ok(Some(Verb::Layout(*root))),
        Args::SweepLayout { root } => Ok(Some(Verb::Sweep(*root))),
        _ => Ok(None),
    }
}

// The call that a procedure with these arguments is for, if it is for one.
pub(crate) fn call_with(alloc: Global, pid: Pid, args: &Args) -> Result<Option<Call>, AllocError>
    ensures { IfOk result (λ call. call ≡ call_if pid.0 (Some (peer_in args.now)) (verb_in args.now)) }
{
    let peer = peer_of(alloc, args)?;
    let Some(verb) = verb_of(alloc, args)? else {
        return Ok(None);
    };
    Ok(Some(Call {
        id: pid,
        peer,
        verb,
    }))
}
