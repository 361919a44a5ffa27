//! The storage that the base of a journal and its reports show.
ghost use Rattle.std.specs.Prelude.{◌≡◌, ◌+◌, IfOk, OnOk, false};
ghost use Rattle.std.specs.Option.{option_map};
ghost use Rattle.hm_names.specs.declared.pid.Pid.{Pid as PidValue};
ghost use Rattle.hm_model.specs.Layouts.{laid_by, layout_called};
ghost use Rattle.hm_model.specs.Verbs.{verb_in};
ghost use Rattle.hm_server.specs.Actors.{storage_of};
ghost use Rattle.hm_world.specs.Shown.{fence_if, shown_below, with_laid};
ghost use Rattle.hm_world_model.specs.World.{shown_storage};

use crate::due::first_pid;
use hm_data::{Args, Told};
use hm_model::Standing;
use hm_model::laws::calls_are_own;
use hm_names::{Pid, ServerName};
use hm_server::StorageActor;
use hm_state::State;
use hm_world_model::layouts_tell;
use std::alloc::{AllocError, Global};

// Has a server fenced, if it is known to be.
fn show_fence(
    storage: &mut StorageActor,
    alloc: Global,
    server: &ServerName,
    standing: &Standing,
) -> Result<(), AllocError>
    ensures { OnOk result (storage_of storage.new ≡ fence_if standing.now.fenced server.now (storage_of storage.old)) }
{
    if standing.fenced {
        storage.show_fenced(alloc, server)?;
    }
    Ok(())
}

// A storage with the fences of a journal alone.
fn with_fences(alloc: Global, state: &State) -> Result<StorageActor, AllocError>
    ensures { IfOk result (λ storage. storage_of storage ≡ with_laid state.now.past (λ root. false)) }
{
    state.journal();
    let mut storage = StorageActor::new(alloc)?;
    let servers = state.servers().all();
    for (server, standing) in servers.iter() {
        show_fence(&mut storage, alloc, server, standing)?;
    }
    Ok(storage)
}

// A storage with the fences of a journal, and the layouts of its base.
fn with_base(alloc: Global, state: &State) -> Result<StorageActor, AllocError>
    ensures { IfOk result (λ storage. storage_of storage ≡ shown_below state.now.past 0) }
{
    state.journal();
    let mut storage = with_fences(alloc, state)?;
    for root in state.records().layouts() {
        storage.show_laid(alloc, *root, true)?;
    }
    Ok(storage)
}

// The root whose layout a procedure with these arguments calls for.
fn layout_of(args: &Args) -> Option<Pid>
    ensures { option_map (λ (root : PidValue). root.0) result ≡ layout_called (verb_in args.now) }
{
    match args {
        Args::LayoutCall { root } => Some(*root),
        Args::SweepLayout { root } => Some(*root),
        _ => None,
    }
}

// Whether a report leaves a layout there, if it is about one.
fn leaves_layout(told: Told) -> Option<bool>
    ensures { result ≡ laid_by told }
{
    match told {
        Told::LaidOut => Some(true),
        Told::Swept => Some(false),
        _ => None,
    }
}

// Has a layout be there, or not, as the report of a procedure's call says, if it is about one.
fn show_layout(
    storage: &mut StorageActor,
    alloc: Global,
    state: &State,
    pid: Pid,
) -> Result<(), AllocError>
    requires { storage_of storage.old ≡ shown_below state.now.past pid.0 }
    ensures { OnOk result (storage_of storage.new ≡ shown_below state.now.past (pid.0 + 1)) }
{
    calls_are_own();
    state.journal();
    let procedures = state.procedures();
    let Some(told) = procedures.report(pid) else {
        return Ok(());
    };
    let Some(record) = procedures.find(pid) else {
        unreachable!()
    };
    let Some(root) = layout_of(&record.args) else {
        return Ok(());
    };
    let Some(there) = leaves_layout(told) else {
        return Ok(());
    };
    storage.show_laid(alloc, root, there)?;
    Ok(())
}

// The storage with the fences and the layouts that the base of a journal and its reports show.
pub(crate) fn storage_shown(alloc: Global, state: &State) -> Result<StorageActor, AllocError>
    ensures { IfOk result (λ storage. storage_of storage ≡ shown_storage state.now.past) }
{
    layouts_tell();
    state.journal();
    let mut storage = with_base(alloc, state)?;
    let last = state.last_pid();
    for pid in first_pid(state)..last + 1 {
        show_layout(&mut storage, alloc, state, Pid(pid))?;
    }
    Ok(storage)
}
