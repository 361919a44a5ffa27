//! A world that begins with a journal.
ghost use Rattle.std.specs.Prelude.{◌≡◌, ◌+◌, [], IfErr, IfOk, None, OnOk};
ghost use Rattle.hm_fleet.specs.Fleet.{outside_of};
ghost use Rattle.hm_hall.specs.Recording.{halt_of, past_in};
ghost use Rattle.hm_world.specs.Scene.{scene_of};
ghost use Rattle.hm_world.specs.Sound.{HaveDue, HaveDueBelow};
ghost use Rattle.hm_world_model.specs.Outside.{nobody};
ghost use Rattle.hm_world_model.specs.World.{shown_storage};

use crate::due::{first_pid, is_due};
use crate::numbers::Numbers;
use crate::shown::storage_shown;
use crate::world::World;
use hm_exec::Exec;
use hm_fleet::Fleet;
use hm_hall::Recorder;
use hm_names::Pid;
use hm_state::State;
use std::alloc::{AllocError, Global};

// Adds the number of a procedure, if its call is due.
fn add_due(numbers: &mut Numbers, state: &State, fleet: &Fleet, pid: u64) -> Result<(), AllocError>
    requires { HaveDueBelow state.now.past (outside_of fleet.now) pid numbers.old.items }
    ensures { OnOk result (HaveDueBelow state.now.past (outside_of fleet.now) (pid + 1) numbers.new.items) }
{
    if is_due(state, fleet, Pid(pid)) {
        numbers.reserve(1)?;
        numbers.push(pid);
    }
    Ok(())
}

// The numbers of the calls that are due.
fn all_due(alloc: Global, state: &State, fleet: &Fleet) -> Result<Numbers, AllocError>
    ensures { IfOk result (λ numbers. HaveDue state.now.past (outside_of fleet.now) numbers.items) }
{
    state.journal();
    let mut numbers = Numbers::new(alloc);
    let last = state.last_pid();
    for pid in first_pid(state)..last + 1 {
        add_due(&mut numbers, state, fleet, pid)?;
    }
    Ok(numbers)
}

// Nobody runs but the storage, and the calls to it that are due.
fn nobody_outside(alloc: Global, state: &State) -> Result<(Fleet, Numbers), AllocError>
    ensures outside { IfOk result (λ r. outside_of r.0 ≡ nobody (shown_storage state.now.past)) }
    ensures still { IfOk result (λ r. (r.0.wire ≡ []) × (r.0.waiting ≡ [])) }
    ensures due { IfOk result (λ r. HaveDue state.now.past (outside_of r.0) r.1.items) }
{
    let fleet = Fleet::of(alloc, storage_shown(alloc, state)?)?;
    let due = all_due(alloc, state, &fleet)?;
    Ok((fleet, due))
}

impl<R: Recorder> World<R> {
    /// The world of a journal, in which nothing is under way: no server runs, nothing was sent, and the storage has the fences and the
    /// layouts that the journal's base and its reports show. An error gives the recorder back.
    pub fn new(alloc: Global, state: State, recorder: R) -> Result<World<R>, (R, AllocError)>
        requires same { past_in (R.kept recorder) ≡ state.past }
        requires going { halt_of (R.kept recorder) ≡ None }
        requires tailless { (R.kept recorder).tail ≡ None }
        ensures recorder { IfOk result (λ world. world.recorder ≡ recorder) }
        ensures claimed { IfOk result (λ world. world.claimed ≡ []) }
        ensures outside { IfOk result (λ world. outside_of world.fleet ≡ nobody (shown_storage state.past)) }
        ensures still { IfOk result (λ world. ((scene_of R.kept world).wire ≡ []) × ((scene_of R.kept world).waiting ≡ [])) }
        ensures back { IfErr result (λ e. e.0 ≡ recorder) }
    {
        state.journal();
        match nobody_outside(alloc, &state) {
            Ok((fleet, due)) => match Exec::new(alloc, state, recorder) {
                Ok(exec) => Ok(World { exec, fleet, due }),
                Err(back) => {
                    drop(fleet);
                    drop(due);
                    Err(back)
                }
            },
            Err(fault) => {
                drop(state);
                Err((recorder, fault))
            }
        }
    }
}
