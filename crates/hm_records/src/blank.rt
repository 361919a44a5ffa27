//! What stands beside the procedures after the first entry.
ghost use Rattle.std.specs.Prelude.{◌≡◌, [], ◌∷◌, IfOk};
ghost use Rattle.hm_catalog.specs.Rows.{rows_in};
ghost use Rattle.hm_model.specs.Rules.{IsLegal};
ghost use Rattle.hm_records.specs.Blank.{AreBlankRows, IsBlank, IsBlankFleet, IsBlankCount};

use hm_catalog::Catalog;
use hm_catalog::laws::edits_lead;
use hm_data::Entry;
use hm_index::Index;
use hm_locks::LockBook;
use hm_names::{Nonce, Pid, TableName};
use hm_places::{Places, Servers};
use hm_undo::Stack;
use std::alloc::{AllocError, Global};

// The rows with which a journal begins: a base's head leaves none.
fn first_rows(alloc: Global, entry: &Entry) -> Result<Catalog, AllocError>
    requires { IsLegal (entry.now ∷ []) }
    ensures { IfOk result (λ catalog. catalog.rows ≡ rows_in (entry.now ∷ [])) }
{
    edits_lead();
    match entry {
        Entry::Base { part: _ } => Catalog::empty(alloc),
        _ => Catalog::start(alloc),
    }
}

// The rows of the catalog, and no step to undo.
#[derive(Drop)]
pub(crate) struct BlankRows {
    pub(crate) catalog: Catalog,
    pub(crate) stack: Stack,
}

impl BlankRows {
    fn new(alloc: Global, entry: &Entry) -> Result<BlankRows, AllocError>
        requires { IsLegal (entry.now ∷ []) }
        ensures { IfOk result (AreBlankRows entry.now) }
    {
        let catalog = first_rows(alloc, entry)?;
        let stack = Stack::new(alloc)?;
        Ok(BlankRows { catalog, stack })
    }
}

// No place of a region, and no server.
#[derive(Drop)]
pub(crate) struct BlankFleet {
    pub(crate) places: Places,
    pub(crate) servers: Servers,
}

impl BlankFleet {
    fn new(alloc: Global) -> Result<BlankFleet, AllocError>
        ensures { IfOk result IsBlankFleet }
    {
        let places = Places::new(alloc)?;
        let servers = Servers::new(alloc)?;
        Ok(BlankFleet { places, servers })
    }
}

// No procedure of a nonce, and no region id that was drawn.
#[derive(Drop)]
pub(crate) struct BlankCount {
    pub(crate) nonces: Index<Nonce, Pid>,
    pub(crate) drawn: Index<TableName, u64>,
}

impl BlankCount {
    fn new(alloc: Global) -> Result<BlankCount, AllocError>
        ensures { IfOk result IsBlankCount }
    {
        let nonces = Index::new(alloc)?;
        let drawn = Index::new(alloc)?;
        Ok(BlankCount { nonces, drawn })
    }
}

// The parts of records, beside the procedures and the lists, after the first entry.
#[derive(Drop)]
pub(crate) struct Blank {
    pub(crate) rows: BlankRows,
    pub(crate) fleet: BlankFleet,
    pub(crate) count: BlankCount,
    pub(crate) book: LockBook,
}

impl Blank {
    pub(crate) fn new(alloc: Global, entry: &Entry) -> Result<Blank, AllocError>
        requires { IsLegal (entry.now ∷ []) }
        ensures { IfOk result (IsBlank entry.now) }
    {
        let rows = BlankRows::new(alloc, entry)?;
        let fleet = BlankFleet::new(alloc)?;
        let count = BlankCount::new(alloc)?;
        let book = LockBook::new(alloc)?;
        Ok(Blank {
            rows,
            fleet,
            count,
            book,
        })
    }
}
