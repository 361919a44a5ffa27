//! Tasks: what the run does for `step` and `settle`.
ghost use Rattle.std.specs.Prelude.{◌≡◌, ◌+◌, ◌++◌, ◌≤◌, [], ℕ, List, All, IfOk, MatchResult, None, Ok, OnErr, OnOk, Some, map};
ghost use Rattle.std.specs.Result.{result_ok};
ghost use Rattle.hm_data.specs.declared.entry.Entry.{Entry as EntryValue};
ghost use Rattle.hm_hall.specs.declared.fault.Halt.{Halt as HaltValue};
ghost use Rattle.hm_sheet.specs.Learnt.{CanRunIn, answer_in};
ghost use Rattle.hm_sheet.specs.Registry.{IsRegistry, sheets_at, sheets_of};
ghost use Rattle.hm_exec.specs.Claiming.{IsAnswer, IsHandedOut};
ghost use Rattle.hm_world.specs.Carrying.{CanCarry, IsNearer};
ghost use Rattle.hm_world.specs.Scene.{GoesOn, Scene as SceneValue, past_in};
ghost use Rattle.hm_world.specs.Taking.{Takes};
ghost use Rattle.hm_commands.specs.Commands.{Settles, WorksFor};
ghost use Rattle.hm_commands.specs.Hands.{HandsAgree, Ran, RunBy, Serve, first_in, hands_use, steps_in};
ghost use Rattle.hm_commands.specs.Scenes.{IsOnly, IsUnrecorded, journal_at};
ghost use Rattle.hm_commands.specs.Tasks.{Becomes, Carried, IsDone, LacksMemory, RunsTo, Tasks, Works, left_to_do};
ghost use Rattle.hm_commands.specs.Telling.{halt_of_fault};
ghost use Rattle.hm_commands.specs.View.{scene_in};

use crate::answer::Answer;
use crate::cluster::Cluster;
use crate::telling::halt_by;
use hm_data::{Answer as StepAnswer, StepIn, StepOut};
use hm_disk::Disk;
use hm_hall::{HallFault, Halt, Taken};
use hm_journal::Journal;
use hm_lists::Steps;
use hm_names::List;
use hm_sheet::{Handler, Registry};
use hm_world::{Task, World};
use std::alloc::{AllocError, Global};
use std::marker::Brand;
use std::sync::ledger::{Blank, Ledger};

/// What became of the next task.
#[derive(Clone, Copy, PartialEq, Eq)]
pub(crate) enum Worked {
    /// It was done.
    Done,
    /// It halted the journal.
    Halted(Halt),
    /// There was none.
    Idle,
}

// What a run of a handler replaces.
fn nothing(alloc: Global) -> StepOut {
    StepOut {
        answer: StepAnswer::Undone,
        edits: List::of(Vec::new(alloc)),
        children: List::of(Vec::new(alloc)),
        call: None,
        place: None,
        followers: List::of(Vec::new(alloc)),
    }
}

// Runs the first registry for an input, and gives what it answers.
fn run_once(alloc: Global, hands: &mut Vec<Registry>, at: &StepIn) -> Result<StepOut, AllocError>
    requires agree { HandsAgree (map (sheets_of ⟦<dyn Handler as Handler>⟧) hands.old.items) }
    requires each { All (IsRegistry ⟦<dyn Handler as Handler>⟧) hands.old.items }
    requires runs { CanRunIn (first_in (map sheets_at hands.old.items) at.now.edition) at.now }
    ensures out { IfOk result (λ out. answer_in (first_in (map sheets_at hands.old.items) at.now.edition) at.now ≡ Some out) }
    ensures each { All (IsRegistry ⟦<dyn Handler as Handler>⟧) hands.new.items }
    ensures runs { OnOk result (RunBy (hands_use ⟦<dyn Handler as Handler>⟧ hands.old.items hands.new.items) 1) }
    ensures later { RunBy (hands_use ⟦<dyn Handler as Handler>⟧ hands.old.items hands.new.items) 0 }
{
    let hands = &mut hands[0];
    let _before = hands.runs();
    let mut out = nothing(alloc);
    hands.run(alloc, at, &mut out)?;
    Ok(out)
}

// Takes the next task, with a count of steps of its own.
fn take<D: Disk, L: Ledger>(
    world: &mut World<Journal<D>>,
    alloc: Global,
    blank: Blank,
) -> Result<Task, HallFault>
    requires name { blank.name ≡ L.name }
    requires parts { blank.parts ≡ L.parts }
    requires some { 1 ≤ L.parts }
    ensures takes { Takes (scene_in world.old) result (scene_in world.new) }
    ensures recorder { world.new.recorder ≡ world.old.recorder }
{
    let mut steps = Steps::<L>::new(blank);
    world.take(alloc, &mut steps)
}

// Records what a handler answered to what was taken, and ends the claim whatever comes of it.
fn record<D: Disk>(
    world: &mut World<Journal<D>>,
    alloc: Global,
    taken: Taken,
    out: StepOut,
) -> Result<Worked, AllocError>
    requires going { GoesOn (scene_in world.old) }
    requires handed { IsHandedOut (past_in (scene_in world.old)) taken }
    requires claimed { IsOnly taken.pid.0 world.old.claimed }
    requires answer { IsAnswer (past_in (scene_in world.old)) taken.was out }
    ensures becomes { IfOk result (λ worked. Becomes (scene_in world.old) taken out worked (scene_in world.new)) }
    ensures err { OnErr result (IsUnrecorded (scene_in world.old) (scene_in world.new)) }
    ensures claimed { world.new.claimed ≡ [] }
    ensures opened { world.new.recorder.opened ≡ world.old.recorder.opened }
{
    match world.give(alloc, taken, out) {
        Ok(given) => {
            drop(given);
            Ok(Worked::Done)
        }
        Err((taken, fault)) => {
            world.put_back(taken);
            halted_by(fault)
        }
    }
}

// What a fault makes of a task.
fn halted_by(fault: HallFault) -> Result<Worked, AllocError>
    ensures { MatchResult result
        (λ worked. (why : HaltValue) × (halt_of_fault fault ≡ Some why) × (worked ≡ Worked.Halted why))
        (λ _. halt_of_fault fault ≡ None) }
{
    match halt_by(fault) {
        Some(why) => Ok(Worked::Halted(why)),
        None => Err(AllocError),
    }
}

// Runs the handler for what was taken, and records what it answers.
fn work<D: Disk>(
    world: &mut World<Journal<D>>,
    alloc: Global,
    hands: &mut Vec<Registry>,
    taken: Taken,
) -> Result<Worked, AllocError>
    requires going { GoesOn (scene_in world.old) }
    requires handed { IsHandedOut (past_in (scene_in world.old)) taken }
    requires claimed { IsOnly taken.pid.0 world.old.claimed }
    requires hands { Serve (map (sheets_of ⟦<dyn Handler as Handler>⟧) hands.old.items) (journal_at (scene_in world.old)) }
    requires each { All (IsRegistry ⟦<dyn Handler as Handler>⟧) hands.old.items }
    ensures runs { IfOk result (λ worked. RunsTo (scene_in world.old) taken worked (scene_in world.new)) }
    ensures err { OnErr result (IsUnrecorded (scene_in world.old) (scene_in world.new)) }
    ensures claimed { world.new.claimed ≡ [] }
    ensures opened { world.new.recorder.opened ≡ world.old.recorder.opened }
    ensures ran { Ran (hands_use ⟦<dyn Handler as Handler>⟧ hands.old.items hands.new.items) (journal_at (scene_in world.old)) (journal_at (scene_in world.new)) }
    ensures each { All (IsRegistry ⟦<dyn Handler as Handler>⟧) hands.new.items }
{
    world.state().journal();
    match run_once(alloc, hands, &taken.was) {
        Ok(out) => record(world, alloc, taken, out),
        Err(fault) => {
            world.put_back(taken);
            Err(fault)
        }
    }
}

// Carries a call or a report.
fn carry<D: Disk>(world: &mut World<Journal<D>>, alloc: Global) -> Result<Worked, AllocError>
    requires going { GoesOn (scene_in world.old) }
    requires can { CanCarry (scene_in world.old) }
    ensures carried { IfOk result (λ worked. Carried (scene_in world.old) worked (scene_in world.new)) }
    ensures nearer { result ≡ Ok Worked.Done → IsNearer (scene_in world.old) (scene_in world.new) }
    ensures err { OnErr result (scene_in world.new ≡ scene_in world.old) }
    ensures claimed { world.new.claimed ≡ world.old.claimed }
    ensures opened { world.new.recorder.opened ≡ world.old.recorder.opened }
    ensures added { (added : List EntryValue) × (journal_at (scene_in world.new) ≡ journal_at (scene_in world.old) ++ added) × (steps_in added ≡ 0) }
{
    match world.carry(alloc) {
        Ok(true) => Ok(Worked::Done),
        Ok(false) => unreachable!(),
        Err(fault) => halted_by(fault),
    }
}

impl<D: Disk> Cluster<D> {
    // Does the next task.
    fn task(&mut self, alloc: Global, hands: &mut Vec<Registry>) -> Result<Worked, AllocError>
        requires going { GoesOn (scene_in self.old) }
        requires hands { Serve (map (sheets_of ⟦<dyn Handler as Handler>⟧) hands.old.items) (journal_at (scene_in self.old)) }
        requires each { All (IsRegistry ⟦<dyn Handler as Handler>⟧) hands.old.items }
        ensures works { IfOk result (λ worked. Works (scene_in self.old) worked (scene_in self.new)) }
        ensures less { result ≡ Ok Worked.Done → left_to_do (scene_in self.new) + 1 ≤ left_to_do (scene_in self.old) }
        ensures err { OnErr result (LacksMemory (scene_in self.old) (scene_in self.new)) }
        ensures opened { self.new.recorder.opened ≡ self.old.recorder.opened }
        ensures ran { Ran (hands_use ⟦<dyn Handler as Handler>⟧ hands.old.items hands.new.items) (journal_at (scene_in self.old)) (journal_at (scene_in self.new)) }
        ensures each { All (IsRegistry ⟦<dyn Handler as Handler>⟧) hands.new.items }
    {
        self.keeps();
        match take::<D, Brand>(&mut self.world, alloc, Blank::new(1)) {
            Ok(Task::Run(taken)) => work(&mut self.world, alloc, hands, taken),
            Ok(Task::Carry) => carry(&mut self.world, alloc),
            Ok(Task::Idle) => Ok(Worked::Idle),
            Ok(Task::Flush) | Ok(Task::Busy) => unreachable!(),
            Err(_) => Err(AllocError),
        }
    }

    // Does so many tasks, or fewer where nothing is left.
    pub(crate) fn step(
        &mut self,
        alloc: Global,
        hands: &mut Vec<Registry>,
        most: u64,
    ) -> Result<Answer, AllocError>
        requires going { GoesOn (scene_in self.old) }
        requires hands { Serve (map (sheets_of ⟦<dyn Handler as Handler>⟧) hands.old.items) (journal_at (scene_in self.old)) }
        requires each { All (IsRegistry ⟦<dyn Handler as Handler>⟧) hands.old.items }
        ensures comes { WorksFor most (scene_in self.old) (result_ok result) (scene_in self.new) }
        ensures opened { self.new.recorder.opened ≡ self.old.recorder.opened }
        ensures ran { Ran (hands_use ⟦<dyn Handler as Handler>⟧ hands.old.items hands.new.items) (journal_at (scene_in self.old)) (journal_at (scene_in self.new)) }
        ensures each { All (IsRegistry ⟦<dyn Handler as Handler>⟧) hands.new.items }
    {
        let mut done = 0;
        while done < most {
            match self.task(alloc, hands) {
                Ok(Worked::Done) => done += 1,
                Ok(Worked::Halted(why)) => return Ok(Answer::Halted(why)),
                Ok(Worked::Idle) => return Ok(Answer::Stepped(done, self.counted())),
                Err(fault) => return Err(fault),
            }
        }
        Ok(Answer::Stepped(done, self.counted()))
    }

    // What settling answers where nothing is left to do.
    fn rested(&self) -> Answer
        requires done { IsDone (scene_in self.now) }
        ensures { (old : SceneValue) (count : ℕ) → Tasks count old (scene_in self.now) → Settles old (Some result) (scene_in self.now) }
    {
        let at = self.counted();
        match self.world.state().unfinished() {
            0 => Answer::Settled(at),
            roots => Answer::Waiting(at, roots),
        }
    }

    // Does tasks until nothing is left.
    pub(crate) fn settle(
        &mut self,
        alloc: Global,
        hands: &mut Vec<Registry>,
    ) -> Result<Answer, AllocError>
        requires going { GoesOn (scene_in self.old) }
        requires hands { Serve (map (sheets_of ⟦<dyn Handler as Handler>⟧) hands.old.items) (journal_at (scene_in self.old)) }
        requires each { All (IsRegistry ⟦<dyn Handler as Handler>⟧) hands.old.items }
        ensures comes { Settles (scene_in self.old) (result_ok result) (scene_in self.new) }
        ensures opened { self.new.recorder.opened ≡ self.old.recorder.opened }
        ensures ran { Ran (hands_use ⟦<dyn Handler as Handler>⟧ hands.old.items hands.new.items) (journal_at (scene_in self.old)) (journal_at (scene_in self.new)) }
        ensures each { All (IsRegistry ⟦<dyn Handler as Handler>⟧) hands.new.items }
    {
        loop {
            match self.task(alloc, hands) {
                Ok(Worked::Done) => {}
                Ok(Worked::Halted(why)) => return Ok(Answer::Halted(why)),
                Ok(Worked::Idle) => return Ok(self.rested()),
                Err(fault) => return Err(fault),
            }
        }
    }
}
