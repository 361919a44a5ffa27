use crate::answer::Cause;
use crate::args::Args;
use hm_names::{Copied, Pid, Same};
use std::alloc::{AllocError, Global};

/// How far a procedure is.
#[derive(Clone, Copy, Debug, PartialEq, Eq)]
pub enum Phase {
    Runnable,
    /// For its children.
    Waiting,
    /// For the answer to its call.
    Awaiting,
    Failed(Cause),
    RolledBack(Cause),
    Success,
}

impl Copied for Phase {
    fn copy(&self, _alloc: Global) -> Result<Phase, AllocError> {
        Ok(*self)
    }
}

impl Same for Phase {
    fn same(&self, other: &Phase) -> bool {
        match self {
            Phase::Runnable => matches!(other, Phase::Runnable),
            Phase::Waiting => matches!(other, Phase::Waiting),
            Phase::Awaiting => matches!(other, Phase::Awaiting),
            Phase::Failed(cause) => match other {
                Phase::Failed(other_cause) => cause.same(other_cause),
                _ => false,
            },
            Phase::RolledBack(cause) => match other {
                Phase::RolledBack(other_cause) => cause.same(other_cause),
                _ => false,
            },
            Phase::Success => matches!(other, Phase::Success),
        }
    }
}

/// A procedure.
#[derive(Drop)]
pub struct Record {
    pub pid: Pid,
    pub parent: Option<Pid>,
    pub root: Pid,
    pub kind: u8,
    /// How often sheets had been adopted when its root was made.
    pub edition: u64,
    /// The row that it runs next.
    pub row: u8,
    pub args: Args,
    /// How often its region failed to open.
    pub tries: u32,
    pub aborted: bool,
    pub phase: Phase,
}

impl Copied for Record {
    fn copy(&self, alloc: Global) -> Result<Record, AllocError> {
        Ok(Record {
            pid: self.pid,
            parent: self.parent,
            root: self.root,
            kind: self.kind,
            edition: self.edition,
            row: self.row,
            args: self.args.copy(alloc)?,
            tries: self.tries,
            aborted: self.aborted,
            phase: self.phase,
        })
    }
}

impl Same for Record {
    fn same(&self, other: &Record) -> bool {
        self.pid.same(&other.pid)
            && self.parent.same(&other.parent)
            && self.root.same(&other.root)
            && self.kind == other.kind
            && self.edition == other.edition
            && self.row == other.row
            && self.args.same(&other.args)
            && self.tries == other.tries
            && self.aborted == other.aborted
            && self.phase.same(&other.phase)
    }
}
