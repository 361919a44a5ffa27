//! A world hands out the tasks of its journal.
ghost use Rattle.std.specs.Prelude.{◌≡◌, ◌≤◌};
ghost use Rattle.hm_model.specs.Rest.{IsAtRest};
ghost use Rattle.hm_world.specs.Hall.{hall_of};
ghost use Rattle.hm_world.specs.Scene.{scene_of};
ghost use Rattle.hm_world.specs.Taking.{Takes};

use crate::world::World;
use hm_data::StepOut;
use hm_hall::{Given, Hall, HallFault, Recorder, Taken, Task, parts_stand_first};
use hm_lists::Steps;
use std::alloc::Global;
use std::marker::Brand;
use std::sync::ledger::{Blank, Ledger};

// Takes the next task, with a count of steps of its own.
fn take_next<R: Recorder, L: Ledger>(
    world: &mut World<R>,
    alloc: Global,
    blank: Blank,
) -> Result<Task, HallFault>
    requires name { blank.name ≡ L.name }
    requires parts { blank.parts ≡ L.parts }
    requires some { 1 ≤ L.parts }
    ensures takes { Takes (scene_of R.kept world.old) result (scene_of R.kept world.new) }
    ensures recorder { world.new.recorder ≡ world.old.recorder }
{
    let mut steps = Steps::<L>::new(blank);
    world.take(alloc, &mut steps)
}

impl<R: Recorder> Hall for World<R> {
    ghost hall = { λ world. hall_of (scene_of R.kept world) };

    ghost rests = { IsAtRest };

    ghost faults = { λ world. R.faults world.recorder };

    fn take(&mut self, alloc: Global) -> Result<Task, HallFault> {
        parts_stand_first();
        take_next::<R, Brand>(self, alloc, Blank::new(1))
    }

    fn give(
        &mut self,
        alloc: Global,
        taken: Taken,
        out: StepOut,
    ) -> Result<Given, (Taken, HallFault)> {
        parts_stand_first();
        World::give(self, alloc, taken, out)
    }

    fn put_back(&mut self, taken: Taken) {
        World::put_back(self, taken);
    }

    fn carry(&mut self, alloc: Global) -> Result<bool, HallFault> {
        parts_stand_first();
        World::carry(self, alloc)
    }
}
