ghost use Rattle.std.specs.Prelude.{◌≡◌, ◌↔◌, IfOk, IsTrue};

use crate::answer::Answer;
use crate::args::{Args, Child};
use crate::call::{Told, Verb};
use crate::catalog::{CatKey, CatRow, Edit};
use crate::pair::{copy_three, copy_two};
use crate::place::Place;
use hm_names::{Copied, List, Pid, RegionName, Same, ServerName};
use std::alloc::{AllocError, Global};

/// What a step answers and does.
#[derive(Drop)]
pub struct StepOut {
    pub answer: Answer,
    pub edits: List<Edit>,
    pub children: List<Child>,
    pub call: Option<Verb>,
    pub place: Option<Place>,
    /// Each becomes a root of its own.
    pub followers: List<Child>,
}

impl Copied for StepOut {
    fn copy(&self, alloc: Global) -> Result<StepOut, AllocError> {
        let lists = copy_three(&self.edits, &self.children, &self.followers, alloc)?;
        let (call, place) = copy_two(&self.call, &self.place, alloc)?;
        let (edits, children, followers) = lists;
        Ok(StepOut {
            answer: self.answer,
            edits,
            children,
            call,
            place,
            followers,
        })
    }
}

impl Same for StepOut {
    fn same(&self, other: &StepOut) -> bool {
        self.answer.same(&other.answer)
            && self.edits.same(&other.edits)
            && self.children.same(&other.children)
            && self.call.same(&other.call)
            && self.place.same(&other.place)
            && self.followers.same(&other.followers)
    }
}

/// Whether a step is made or undone.
#[derive(Drop)]
pub enum Turn {
    Step,
    /// The edits that the step made.
    Undo { edits: List<Edit> },
}

impl Copied for Turn {
    fn copy(&self, alloc: Global) -> Result<Turn, AllocError> {
        match self {
            Turn::Step => Ok(Turn::Step),
            Turn::Undo { edits } => Ok(Turn::Undo {
                edits: edits.copy(alloc)?,
            }),
        }
    }
}

impl Same for Turn {
    fn same(&self, other: &Turn) -> bool {
        match self {
            Turn::Step => matches!(other, Turn::Step),
            Turn::Undo { edits } => match other {
                Turn::Undo { edits: other_edits } => edits.same(other_edits),
                _ => false,
            },
        }
    }
}

/// What a step sees.
#[derive(Drop)]
pub struct StepIn {
    pub pid: Pid,
    pub root: Pid,
    pub kind: u8,
    /// How often sheets had been adopted when its root was made.
    pub edition: u64,
    pub row: u8,
    pub args: Args,
    /// How often the region of a transit failed to open.
    pub tries: u32,
    /// The rows of the catalog that the kind reads and that are there, in key order.
    pub rows: List<(CatKey, CatRow)>,
    /// What the children ended with.
    pub ends: List<(Pid, Told)>,
    pub report: Option<Told>,
    pub place: Option<Place>,
    pub fenced: bool,
    /// The regions to assign anew after a crash.
    pub on_server: List<RegionName>,
    pub pick: Option<ServerName>,
    pub aborted: bool,
    pub turn: Turn,
}

// The lists of an input, and its other parts that own memory but the args.
type Lists = (List<(CatKey, CatRow)>, List<(Pid, Told)>, List<RegionName>);

type Parts = (Option<Place>, Option<ServerName>, Turn);

impl StepIn {
    fn copy_lists(&self, alloc: Global) -> Result<Lists, AllocError>
        ensures { IfOk result
            (λ x. (x.0 ≡ self.now.rows) × (x.1 ≡ self.now.ends) × (x.2 ≡ self.now.on_server)) }
    {
        copy_three(&self.rows, &self.ends, &self.on_server, alloc)
    }

    fn copy_parts(&self, alloc: Global) -> Result<Parts, AllocError>
        ensures { IfOk result
            (λ x. (x.0 ≡ self.now.place) × (x.1 ≡ self.now.pick) × (x.2 ≡ self.now.turn)) }
    {
        copy_three(&self.place, &self.pick, &self.turn, alloc)
    }

    fn copy_owned(&self, alloc: Global) -> Result<(Args, Lists, Parts), AllocError>
        ensures args { IfOk result (λ x. x.0 ≡ self.now.args) }
        ensures lists { IfOk result (λ x. (x.1.0 ≡ self.now.rows) × (x.1.1 ≡ self.now.ends) × (x.1.2 ≡ self.now.on_server)) }
        ensures parts { IfOk result (λ x. (x.2.0 ≡ self.now.place) × (x.2.1 ≡ self.now.pick) × (x.2.2 ≡ self.now.turn)) }
    {
        let lists = self.copy_lists(alloc)?;
        let parts = self.copy_parts(alloc)?;
        Ok((self.args.copy(alloc)?, lists, parts))
    }

    fn same_procedure(&self, other: &StepIn) -> bool
        ensures { IsTrue result
            ↔ ((self.now.pid ≡ other.now.pid) × (self.now.root ≡ other.now.root) × (self.now.kind ≡ other.now.kind)
            × (self.now.edition ≡ other.now.edition) × (self.now.row ≡ other.now.row) × (self.now.args ≡ other.now.args)) }
    {
        self.pid.same(&other.pid)
            && self.root.same(&other.root)
            && self.kind == other.kind
            && self.edition == other.edition
            && self.row == other.row
            && self.args.same(&other.args)
    }

    fn same_rows(&self, other: &StepIn) -> bool
        ensures { IsTrue result
            ↔ ((self.now.tries ≡ other.now.tries) × (self.now.rows ≡ other.now.rows) × (self.now.ends ≡ other.now.ends)
            × (self.now.report ≡ other.now.report) × (self.now.place ≡ other.now.place)) }
    {
        self.tries == other.tries
            && self.rows.same(&other.rows)
            && self.ends.same(&other.ends)
            && self.report.same(&other.report)
            && self.place.same(&other.place)
    }

    fn same_servers(&self, other: &StepIn) -> bool
        ensures { IsTrue result
            ↔ ((self.now.fenced ≡ other.now.fenced) × (self.now.on_server ≡ other.now.on_server)
            × (self.now.pick ≡ other.now.pick) × (self.now.aborted ≡ other.now.aborted) × (self.now.turn ≡ other.now.turn)) }
    {
        self.fenced == other.fenced
            && self.on_server.same(&other.on_server)
            && self.pick.same(&other.pick)
            && self.aborted == other.aborted
            && self.turn.same(&other.turn)
    }
}

impl Copied for StepIn {
    fn copy(&self, alloc: Global) -> Result<StepIn, AllocError> {
        let (args, lists, parts) = self.copy_owned(alloc)?;
        let (rows, ends, on_server) = lists;
        let (place, pick, turn) = parts;
        Ok(StepIn {
            pid: self.pid,
            root: self.root,
            kind: self.kind,
            edition: self.edition,
            row: self.row,
            args,
            tries: self.tries,
            rows,
            ends,
            report: self.report,
            place,
            fenced: self.fenced,
            on_server,
            pick,
            aborted: self.aborted,
            turn,
        })
    }
}

impl Same for StepIn {
    fn same(&self, other: &StepIn) -> bool {
        self.same_procedure(other) && self.same_rows(other) && self.same_servers(other)
    }
}
