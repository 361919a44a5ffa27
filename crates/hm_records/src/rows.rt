//! The rows of the catalog.
ghost use Rattle.std.specs.Prelude.{◌≡◌, ◌≢◌, ◌+◌, ◌≤◌, [], ◌∷◌, length, IfOk, Some};
ghost use Rattle.hm_catalog.specs.Rows.{rows_in, with_edits, with_row};
ghost use Rattle.hm_data.specs.declared.catalog.CatRow.TheVariants as row_is;
ghost use Rattle.hm_model.specs.Parts.{table_row as table_row_of};
ghost use Rattle.hm_model.specs.Rules.{IsLegal};
ghost use Rattle.hm_records.specs.Parts.{edits_of as edits_by, row_told as told_by, told_edits};

use hm_catalog::Catalog;
use hm_catalog::laws::edits_lead;
use hm_data::{CatKey, CatRow, Edit, Entry, Part, Status, TableState};
use hm_names::{Copied, KeyRange, List};
use hm_procedures::Procedures;
use std::alloc::{AllocError, Global};

// The row of a table, if it has one.
fn table_row(row: &Option<(TableState, u64)>) -> Option<CatRow>
    ensures { result ≡ table_row_of row.now }
{
    match row {
        Some((state, version)) => Some(CatRow::Table {
            state: *state,
            version: *version,
        }),
        None => None,
    }
}

// The row of a region, in memory of its own.
fn region_row(
    alloc: Global,
    range: &KeyRange,
    status: Status,
    parents: &List<u64>,
) -> Result<CatRow, AllocError>
    ensures { IfOk result (λ row. row ≡ row_is.Region range.now status parents.now) }
{
    let range = range.copy(alloc)?;
    let parents = parents.copy(alloc)?;
    Ok(CatRow::Region {
        range,
        status,
        parents,
    })
}

// The key that a part of a base is of, with the row that it gives it.
type Told = Option<(CatKey, Option<CatRow>)>;

fn row_told(alloc: Global, part: &Part) -> Result<Told, AllocError>
    ensures { IfOk result (λ told. told ≡ told_by part.now) }
{
    match part {
        Part::Namespace { ns } => Ok(Some((CatKey::Ns(ns.copy(alloc)?), Some(CatRow::Ns)))),
        Part::Table {
            table,
            drawn: _,
            row,
        } => Ok(Some((CatKey::Table(table.copy(alloc)?), table_row(row)))),
        Part::Region {
            region,
            range,
            status,
            parents,
            place: _,
        } => {
            let row = region_row(alloc, range, *status, parents)?;
            Ok(Some((CatKey::Region(region.copy(alloc)?), Some(row))))
        }
        _ => Ok(None),
    }
}

// The edit that gives a key its row, if there is one.
fn edits_told(alloc: Global, told: Told) -> Result<List<Edit>, AllocError>
    ensures { IfOk result (λ edits. edits ≡ told_edits told) }
{
    let mut edits = Vec::new(alloc);
    if let Some((key, after)) = told {
        edits.push(Edit {
            key,
            before: None,
            after,
        })?;
    }
    Ok(List::of(edits))
}

// The edits of an entry; of a part of a base, the one that gives its key the row.
pub(crate) fn edits_of(alloc: Global, entry: &Entry) -> Result<List<Edit>, AllocError>
    ensures { IfOk result (λ edits. edits ≡ edits_by entry.now) }
{
    match entry {
        Entry::Step {
            pid: _,
            pick: _,
            out,
        } => out.edits.copy(alloc),
        Entry::Undo {
            pid: _,
            row: _,
            out,
        } => out.edits.copy(alloc),
        Entry::Base { part } => edits_told(alloc, row_told(alloc, part)?),
        _ => Ok(List::of(Vec::new(alloc))),
    }
}

// Gives a key the row that an edit leaves.
fn set_one(catalog: &mut Catalog, edit: Edit)
    requires { 1 ≤ catalog.old.spare }
    ensures rows { catalog.new.rows ≡ with_row edit.key edit.after catalog.old.rows }
    ensures spare { catalog.old.spare ≤ catalog.new.spare + 1 }
    ensures room { catalog.new.room ≡ catalog.old.room }
{
    catalog.set(edit.key, edit.after);
}

// Gives each key the row that an edit leaves, in the order of the edits.
fn set_all(catalog: &mut Catalog, edits: List<Edit>)
    requires { length edits ≤ catalog.old.spare }
    ensures rows { catalog.new.rows ≡ with_edits edits catalog.old.rows }
    ensures spare { catalog.old.spare ≤ catalog.new.spare + length edits }
    ensures room { catalog.new.room ≡ catalog.old.room }
{
    for edit in edits.into_vec() {
        set_one(catalog, edit);
    }
}

// Takes in the edits of an entry.
pub(crate) fn set_rows(catalog: &mut Catalog, past: &Procedures, entry: &Entry, edits: List<Edit>)
    requires legal { IsLegal (entry.now ∷ past.now.past) }
    requires begun { past.now.past ≢ [] }
    requires rows { catalog.old.rows ≡ rows_in past.now.past }
    requires edits { edits ≡ edits_by entry.now }
    requires room { length edits ≤ catalog.old.spare }
    ensures rows { catalog.new.rows ≡ rows_in (entry.now ∷ past.now.past) }
    ensures spare { catalog.old.spare ≤ catalog.new.spare + length edits }
    ensures room { catalog.new.room ≡ catalog.old.room }
{
    edits_lead();
    let _past = past;
    let _entry = entry;
    set_all(catalog, edits);
}
