//! A hall of equal tasks, whose log is a list in memory.
ghost use Rattle.std.specs.Prelude.{◌≡◌, ◌≢◌, ◌+◌, ◌<◌, ◌^◌, [], ◌∷◌, ◌++◌, ℕ, IfOk, MatchOption, Some, false, length, slice_get};
ghost use Rattle.hm_model.specs.Evaluation.{CanRun};
ghost use Rattle.hm_sheet.specs.Own.{own_sheet as own};
ghost use Rattle.hm_rows_workers.specs.Tasks.{AllDone, AreSo, CanGo, as_list, in_each, log_number, outs_from, view_of};

use crate::stage::Stage;
use hm_data::{Args, Entry, StepIn, StepOut, Turn};
use hm_gate::Kept;
use hm_hall::{Given, HallFault, Taken, Task};
use hm_lend::{Hall, Writer};
use hm_names::{List, Pid, ServerName};
use std::alloc::{AllocError, Global};
use std::snapshot::Snapshot;

/// The kind of all tasks: it calls a storage.
pub const KIND: u8 = 26;

// What a task sees.
fn input(alloc: Global) -> StepIn
    ensures { CanRun (own 26 ∷ []) result }
{
    StepIn {
        pid: Pid(0),
        root: Pid(1),
        kind: KIND,
        edition: 0,
        row: 0,
        args: Args::LayoutCall { root: Pid(1) },
        tries: 0,
        rows: List::of(Vec::new(alloc)),
        ends: List::of(Vec::new(alloc)),
        report: None,
        place: None,
        fenced: false,
        on_server: List::of(Vec::new(alloc)),
        pick: None,
        aborted: false,
        turn: Turn::Step,
    }
}

// The number of what was taken.
fn number_of(taken: &Taken) -> u64
    ensures { result ≡ taken.now.pid.0 }
{
    taken.pid.0
}

// The server that was picked.
fn pick_of(was: StepIn) -> Option<ServerName>
    ensures { result ≡ was.pick }
{
    was.pick
}

/// A log that is out.
#[derive(Drop)]
pub struct Lent {
    entries: Snapshot<Vec<Entry>>,
    durable: u64,
    wanted: u64,
    count: u64,
    written: bool,
    ghost counted: { count ≡ length entries.value.items },
}

impl Writer for Lent {
    type Terms = u64;

    ghost out = { λ o. record { list = o.entries.value.items; durable = o.durable; terms = o.wanted; written = o.written } };

    ghost faults = { λ _. 0 };

    ghost since = { λ _. 0 };

    fn write(&mut self) {
        self.written = true;
    }
}

/// Tasks, and the answers that were recorded. Its log lends so many of them.
#[derive(Drop)]
pub struct Toy {
    entries: Vec<Entry>,
    stages: Vec<Stage>,
    durable: u64,
    lent: Option<u64>,
    wanted: u64,
    ghost so: { AreSo stages.items entries.items },
    ghost all: { length stages.items ≡ wanted },
    ghost few: { length stages.items < 2 ^ 64 },
}

impl Kept for Toy {
    type Item = Entry;

    type Terms = u64;

    ghost shown = { λ t. record { items = t.entries.items; outs = outs_from 0 t.stages.items ++ as_list (log_number t.durable t.lent); stopped = false; terms = t.wanted } };

    fn count(&self) -> u64 {
        self.entries.len() as u64
    }
}

// The first task with a stage.
fn first_at(stages: &[Stage], stage: Stage) -> Option<usize>
    ensures { MatchOption result
        ((p : ℕ) → slice_get stages.now p ≢ Some stage)
        (λ p. slice_get stages.now p ≡ Some stage) }
{
    for place in 0..stages.len() {
        if stages[place] == stage {
            return Some(place);
        }
    }
    None
}

impl Toy {
    /// A hall of so many tasks, none of which was taken.
    pub fn new(alloc: Global, wanted: u32) -> Result<Toy, AllocError>
        ensures none { IfOk result (λ t. outs_from 0 t.stages.items ++ as_list (log_number t.durable t.lent) ≡ []) }
    {
        let mut stages = Vec::new(alloc);
        for _ in 0..wanted {
            stages.push(Stage::Waits)?;
        }
        Ok(Toy {
            entries: Vec::new(alloc),
            stages,
            durable: 0,
            lent: None,
            wanted: u64::from(wanted),
        })
    }

    /// The entries, and how many of them are durable.
    pub fn end(self) -> (Vec<Entry>, u64) {
        let Toy {
            entries,
            stages: _,
            durable,
            lent: _,
            wanted: _,
        } = self;
        (entries, durable)
    }
}

impl Hall for Toy {
    ghost use Rattle.hm_rows_workers.specs.Tied.{tied};

    type Out = Lent;

    ghost hall = { λ t. view_of t.entries.items t.durable t.lent t.stages.items (own 26 ∷ []) };

    ghost editions_in = { λ _. in_each (own 26 ∷ []) };

    ghost can_go = { CanGo };

    ghost rests = { AllDone };

    ghost faults = { λ _. 0 };

    fn take(&mut self, alloc: Global) -> Result<Task, HallFault> {
        if let Some(place) = first_at(self.stages.as_slice(), Stage::Waits) {
            self.stages[place] = Stage::Out;
            let pid = Pid(place as u64);
            let was = input(alloc);
            return Ok(Task::Run(Taken { pid, was }));
        }
        if self.lent.is_some() {
            return Ok(Task::Busy);
        }
        if self.durable != self.entries.len() as u64 {
            return Ok(Task::Flush);
        }
        match first_at(self.stages.as_slice(), Stage::Out) {
            Some(_) => Ok(Task::Busy),
            None => Ok(Task::Idle),
        }
    }

    fn give(
        &mut self,
        _alloc: Global,
        taken: Taken,
        out: StepOut,
    ) -> Result<Given, (Taken, HallFault)> {
        if self.entries.reserve(1).is_err() {
            return Err((taken, HallFault::Memory));
        }
        let place = number_of(&taken) as usize;
        let number = self.entries.len() as u64;
        self.stages[place] = Stage::Done;
        let Taken { pid, was } = taken;
        let pick = pick_of(was);
        self.entries.push_reserved(Entry::Step { pid, pick, out });
        Ok(Given::Kept(number))
    }

    fn put_back(&mut self, taken: Taken) {
        let place = number_of(&taken) as usize;
        self.stages[place] = Stage::Waits;
        let Taken { pid: _, was: _ } = taken;
    }

    fn carry(&mut self, _alloc: Global) -> Result<bool, HallFault> {
        Ok(false)
    }

    fn lend(&mut self) -> Option<Lent> {
        let count = self.entries.len() as u64;
        if self.lent.is_some() || self.durable == count {
            return None;
        }
        self.lent = Some(count);
        Some(Lent {
            entries: Snapshot::of(&self.entries),
            durable: self.durable,
            wanted: self.wanted,
            count,
            written: false,
        })
    }

    fn back(&mut self, out: Lent) -> Result<u64, HallFault> {
        let count = out.count;
        self.durable = count;
        self.lent = None;
        Ok(count)
    }

    ghost ties = { λ t. tied (λ _. in_each (own 26 ∷ [])) t.wanted t.entries.items t.durable t.lent t.stages.items t.few };
}
