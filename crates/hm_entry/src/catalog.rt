ghost use Rattle.hm_data.specs.declared.catalog.CatRow.TheVariants as row_is;
ghost use Rattle.hm_entry.specs.Reading.{Gives, of_two, list_at, option_at, u64_at, range_at, table_state_at, status_at};
ghost use Rattle.hm_entry.specs.Reading.{cat_key_of, cat_key_at, cat_row_of, cat_row_at, edit_at};

use crate::codes::{status, table_state};
use crate::fault::EntryFault;
use crate::fields::{byte, u64};
use crate::get::{Get, list, option};
use crate::names::{ns, range, region, table};
use hm_data::{CatKey, CatRow, Edit};
use hm_names::KeyRange;
use hm_wire::Reader;
use std::alloc::Global;

// A key of this kind, which stood at the place.
#[tactic(auto, unfolding(crate::specs::Reading::cat_key_of))]
fn key_behind(alloc: Global, place: u64, kind: u8, r: &mut Reader) -> Result<CatKey, EntryFault>
    ensures { Gives result (cat_key_of place kind r.old) r.new }
{
    match kind {
        0 => Ok(CatKey::Ns(ns(alloc, r)?)),
        1 => Ok(CatKey::Table(table(alloc, r)?)),
        2 => Ok(CatKey::Region(region(alloc, r)?)),
        _ => Err(EntryFault::Field(place)),
    }
}

#[tactic(auto, unfolding(crate::specs::Reading::cat_key_at))]
fn key(alloc: Global, r: &mut Reader) -> Result<CatKey, EntryFault>
    ensures { Gives result (cat_key_at r.old) r.new }
{
    let place = r.at();
    let kind = byte(r)?;
    key_behind(alloc, place, kind, r)
}

// The fields of a table's row.
fn table_row(r: &mut Reader) -> Result<CatRow, EntryFault>
    ensures { Gives result (of_two row_is.Table table_state_at u64_at r.old) r.new }
{
    Ok(CatRow::Table {
        state: table_state(r)?,
        version: u64(r)?,
    })
}

// The fields of a region's row behind its range.
fn region_row(alloc: Global, range: KeyRange, r: &mut Reader) -> Result<CatRow, EntryFault>
    ensures { Gives result (of_two (row_is.Region range) status_at (list_at u64_at) r.old) r.new }
{
    let status = status(r)?;
    let parents = list(alloc, r)?;
    Ok(CatRow::Region {
        range,
        status,
        parents,
    })
}

// A row of this kind, which stood at the place.
#[tactic(auto, unfolding(crate::specs::Reading::cat_row_of))]
fn row_behind(alloc: Global, place: u64, kind: u8, r: &mut Reader) -> Result<CatRow, EntryFault>
    ensures { Gives result (cat_row_of place kind r.old) r.new }
{
    match kind {
        0 => Ok(CatRow::Ns),
        1 => table_row(r),
        2 => {
            let range = range(alloc, r)?;
            region_row(alloc, range, r)
        }
        _ => Err(EntryFault::Field(place)),
    }
}

impl Get for CatRow {
    ghost read = { cat_row_at };

    #[tactic(auto, unfolding(crate::specs::Reading::cat_row_at))]
    fn get(alloc: Global, r: &mut Reader) -> Result<CatRow, EntryFault> {
        let place = r.at();
        let kind = byte(r)?;
        row_behind(alloc, place, kind, r)
    }
}

// The rows of an edit behind its key.
fn edit_behind(alloc: Global, key: CatKey, r: &mut Reader) -> Result<Edit, EntryFault>
    ensures { Gives result (of_two (λ before after. record { key = key; before = before; after = after }) (option_at cat_row_at) (option_at cat_row_at) r.old) r.new }
{
    let before = match option(alloc, r) {
        Ok(before) => before,
        Err(fault) => {
            drop(key);
            return Err(fault);
        }
    };
    match option(alloc, r) {
        Ok(after) => Ok(Edit { key, before, after }),
        Err(fault) => {
            drop(key);
            drop(before);
            Err(fault)
        }
    }
}

impl Get for Edit {
    ghost read = { edit_at };

    #[tactic(auto, unfolding(crate::specs::Reading::edit_at))]
    fn get(alloc: Global, r: &mut Reader) -> Result<Edit, EntryFault> {
        let key = key(alloc, r)?;
        edit_behind(alloc, key, r)
    }
}
