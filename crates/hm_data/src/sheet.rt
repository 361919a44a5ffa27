use crate::act::{Act, Back};
use hm_names::{Copied, List, Same};
use std::alloc::{AllocError, Global};

/// A row of a sheet.
#[derive(Clone, Copy, Debug, PartialEq, Eq)]
pub struct Row {
    pub act: Act,
    /// The row that follows, or 255 where the procedure ends.
    pub next: u8,
    /// Whether the row is after the point from which on the procedure is not rolled back.
    pub after: bool,
    pub undo: Back,
}

impl Copied for Row {
    fn copy(&self, _alloc: Global) -> Result<Row, AllocError> {
        Ok(*self)
    }
}

impl Same for Row {
    fn same(&self, other: &Row) -> bool {
        self.act.same(&other.act)
            && self.next == other.next
            && self.after == other.after
            && self.undo.same(&other.undo)
    }
}

/// The rows of a kind of procedure. The number of a row is its place.
#[derive(Drop)]
pub struct Sheet {
    pub kind: u8,
    pub rows: List<Row>,
}

impl Copied for Sheet {
    fn copy(&self, alloc: Global) -> Result<Sheet, AllocError> {
        Ok(Sheet {
            kind: self.kind,
            rows: self.rows.copy(alloc)?,
        })
    }
}

impl Same for Sheet {
    fn same(&self, other: &Sheet) -> bool {
        self.kind == other.kind && self.rows.same(&other.rows)
    }
}
