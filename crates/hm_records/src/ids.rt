//! The region ids that were drawn for tables.
ghost use Rattle.std.specs.Prelude.{◌≡◌, ◌+◌, ◌≤◌, ◌∷◌, IfOk, Some};
ghost use Rattle.hm_names.specs.Order.{table_cmp};
ghost use Rattle.hm_index.specs.Index.{find};
ghost use Rattle.hm_model.specs.Kinds.{table_of_request as requested_table};
ghost use Rattle.hm_model.specs.Rules.{IsLegal};
ghost use Rattle.hm_model.specs.Tree.{first_of as first_id, new_ids as ids_of};
ghost use Rattle.hm_records.specs.Parts.{counted_for, ids_drawn as drawn_by, part_ids as told_by};
ghost use Rattle.hm_records.specs.Records.{AreDrawn, beside_ids, count_if};

use crate::records::Records;
use hm_data::{Entry, Part, Request};
use hm_index::Index;
use hm_names::{Copied, TableName};
use hm_procedures::Procedures;
use hm_views::views::table_of_request;
use std::alloc::{AllocError, Global};

/// How many region ids a request draws: one for each region that it makes.
pub fn new_ids(request: &Request) -> u64
    ensures { result ≡ ids_of request.now }
{
    match request {
        Request::CreateTable { table: _, keys } => keys.as_slice().len() as u64 + 1,
        Request::SplitRegion { region: _, key: _ } => 2,
        Request::MergeRegions { regions: _ } => 1,
        _ => 0,
    }
}

// The lowest region id not yet drawn for the table of a request, and 1 where it has none.
pub(crate) fn first_of(records: &Records, request: &Request) -> u64
    ensures { result ≡ first_id records.now.past (requested_table request.now) }
{
    match table_of_request(request) {
        Some(table) => {
            let _legal = records.procedures();
            records.drawn(table) + 1
        }
        None => 1,
    }
}

// The table and the count of ids, in memory of their own.
type Counted = Option<(TableName, u64)>;

fn counted(alloc: Global, table: &TableName, count: u64) -> Result<Counted, AllocError>
    ensures { IfOk result (λ ids. ids ≡ Some (table.now, count)) }
{
    Ok(Some((table.copy(alloc)?, count)))
}

// The table for which a request draws region ids, and how many.
fn request_ids(alloc: Global, request: &Request) -> Result<Counted, AllocError>
    ensures { IfOk result (λ ids. ids ≡ counted_for (requested_table request.now) (ids_of request.now)) }
{
    let count = new_ids(request);
    match table_of_request(request) {
        Some(table) if count != 0 => counted(alloc, table, count),
        _ => Ok(None),
    }
}

// The table of a part of a base, and how many region ids were drawn for it.
fn part_ids(alloc: Global, part: &Part) -> Result<Counted, AllocError>
    ensures { IfOk result (λ ids. ids ≡ told_by part.now) }
{
    match part {
        Part::Table {
            table,
            drawn,
            row: _,
        } => counted(alloc, table, *drawn),
        _ => Ok(None),
    }
}

// The table for which an entry draws region ids, and how many; a part of a base tells how many were drawn in all.
pub(crate) fn ids_drawn(
    alloc: Global,
    entry: &Entry,
) -> Result<Option<(TableName, u64)>, AllocError>
    ensures { IfOk result (λ ids. ids ≡ drawn_by entry.now) }
{
    match entry {
        Entry::Submit { nonce: _, request } => request_ids(alloc, request),
        Entry::Base { part } => part_ids(alloc, part),
        _ => Ok(None),
    }
}

// How many were drawn, by what is kept.
pub(crate) fn drawn_in(drawn: &Index<TableName, u64>, table: &TableName) -> u64
    ensures { result ≡ count_if (find table_cmp drawn.now.pairs table.now) }
{
    match drawn.get(table) {
        Some(count) => *count,
        None => 0,
    }
}

// How many ids count for a table beside those of an entry: none where it is a part of a base, which tells all of them.
fn drawn_beside(drawn: &Index<TableName, u64>, entry: &Entry, table: &TableName) -> u64
    ensures { result ≡ beside_ids entry.now (count_if (find table_cmp drawn.now.pairs table.now)) }
{
    match entry {
        Entry::Base { part: _ } => 0,
        _ => drawn_in(drawn, table),
    }
}

// Takes in the ids that an entry draws.
pub(crate) fn count_ids(
    drawn: &mut Index<TableName, u64>,
    past: &Procedures,
    entry: &Entry,
    ids: Option<(TableName, u64)>,
)
    requires legal { IsLegal (entry.now ∷ past.now.past) }
    requires drawn { AreDrawn past.now.past drawn.old.pairs }
    requires ids { ids ≡ drawn_by entry.now }
    requires room { 1 ≤ drawn.old.spare }
    ensures drawn { AreDrawn (entry.now ∷ past.now.past) drawn.new.pairs }
    ensures spare { drawn.old.spare ≤ drawn.new.spare + 1 }
    ensures room { drawn.new.room ≡ drawn.old.room }
{
    let Some((table, count)) = ids else {
        return;
    };
    let before = drawn_beside(drawn, entry, &table);
    drawn.set(table, before + count);
}
