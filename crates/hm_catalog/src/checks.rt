//! The causes that stand against a request, by the rows that it is about.
ghost use Rattle.std.specs.Prelude.{◌≡◌, [], ◌∷◌, is_none};
ghost use Rattle.std.specs.Option.{option_copied};
ghost use Rattle.hm_model.specs.Checks.{can_split as can_split_of, key_inside as inside_of, namespace_empty as empty_of, namespace_free as free_of, region_ready as ready_of, regions_live, table_disabled as disabled_of, table_enabled as enabled_of, table_free as table_free_of, table_in as in_of};
ghost use Rattle.hm_model.specs.RowsSaid.{is_live_status, range_in, status_in, table_state_in};

use hm_data::{CatRow, Cause, Status, TableState};
use hm_names::{KeyRange, RowKey};

// A namespace to create isn't there.
pub(crate) fn namespace_free(row: Option<&CatRow>) -> Option<Cause>
    ensures { result ≡ free_of (option_copied row.entry) }
{
    match row {
        Some(_) => Some(Cause::NsExists),
        None => None,
    }
}

// A namespace to drop is there, and has no table.
pub(crate) fn namespace_empty(row: Option<&CatRow>, has_table: bool) -> Option<Cause>
    ensures { result ≡ empty_of (option_copied row.entry) has_table }
{
    if row.is_none() {
        return Some(Cause::NsMissing);
    }
    if has_table {
        return Some(Cause::NsNotEmpty);
    }
    None
}

// The namespace of a table to create is there, and the table isn't.
pub(crate) fn table_free(ns: Option<&CatRow>, table: Option<&CatRow>) -> Option<Cause>
    ensures { result ≡ table_free_of (option_copied ns.entry) (option_copied table.entry) }
{
    if ns.is_none() {
        return Some(Cause::NsMissing);
    }
    if table.is_some() {
        return Some(Cause::TableExists);
    }
    None
}

// A table is there, and in the state that is asked for.
fn table_in(row: Option<&CatRow>, wanted: TableState, cause: Cause) -> Option<Cause>
    ensures { result ≡ in_of wanted cause (table_state_in (option_copied row.entry)) }
{
    match row {
        Some(CatRow::Table { state, version: _ }) => {
            if wanted.number() == state.number() {
                return None;
            }
            Some(cause)
        }
        _ => Some(Cause::TableMissing),
    }
}

pub(crate) fn table_disabled(row: Option<&CatRow>) -> Option<Cause>
    ensures { result ≡ disabled_of (option_copied row.entry) }
{
    table_in(row, TableState::Disabled, Cause::NotDisabled)
}

pub(crate) fn table_enabled(row: Option<&CatRow>) -> Option<Cause>
    ensures { result ≡ enabled_of (option_copied row.entry) }
{
    table_in(row, TableState::Enabled, Cause::NotEnabled)
}

// A region has no row.
pub(crate) fn is_missing(row: Option<&CatRow>) -> bool
    ensures { result ≡ is_none (status_in (option_copied row.entry)) }
{
    !matches!(row, Some(CatRow::Region { .. }))
}

// A region's row is live.
pub(crate) fn is_live(row: Option<&CatRow>) -> bool
    ensures { result ≡ is_live_status (status_in (option_copied row.entry)) }
{
    match row {
        Some(
            CatRow::Region {
                range: _,
                status,
                parents: _,
            },
        ) => status.number() == Status::Live.number(),
        _ => false,
    }
}

// A region is there, and live.
fn region_live(row: Option<&CatRow>) -> Option<Cause>
    ensures { result ≡ regions_live (option_copied row.entry ∷ []) }
{
    if is_missing(row) {
        return Some(Cause::RegionMissing);
    }
    if !is_live(row) {
        return Some(Cause::RegionNotLive);
    }
    None
}

// A region of an enabled table is live.
pub(crate) fn region_ready(table: Option<&CatRow>, region: Option<&CatRow>) -> Option<Cause>
    ensures { result ≡ ready_of (option_copied table.entry) (option_copied region.entry) }
{
    let cause = table_enabled(table);
    if cause.is_some() {
        return cause;
    }
    region_live(region)
}

// The range of a region.
pub(crate) fn range_of(row: Option<&CatRow>) -> Option<&KeyRange>
    ensures { option_copied result ≡ range_in (option_copied row.entry) }
{
    match row {
        Some(
            CatRow::Region {
                range,
                status: _,
                parents: _,
            },
        ) => Some(range),
        _ => None,
    }
}

fn key_inside(region: Option<&CatRow>, key: &RowKey) -> Option<Cause>
    ensures { result ≡ inside_of (range_in (option_copied region.entry)) key.now }
{
    let range = range_of(region)?;
    if range.inner(key) {
        return None;
    }
    Some(Cause::KeyOutside)
}

// A region of an enabled table is live, and can be split at a key.
pub(crate) fn can_split(
    table: Option<&CatRow>,
    region: Option<&CatRow>,
    key: &RowKey,
) -> Option<Cause>
    ensures { result ≡ can_split_of (option_copied table.entry) (option_copied region.entry) key.now }
{
    let cause = region_ready(table, region);
    if cause.is_some() {
        return cause;
    }
    key_inside(region, key)
}
