// What stands against a request, by the rows that it is about: the first cause.
ghost use Rattle.std.specs.Prelude.{◌≡◌, [], ◌∷◌, option_copied};
ghost use Rattle.hm_model.specs.Checks.{namespace_free as ns_free, namespace_there as ns_there, namespace_empty as ns_empty, table_absent as absent, table_free as free, table_in as found_in, table_disabled as disabled, table_enabled as enabled, region_ready as ready, regions_live, can_split as may_split, key_inside as is_inside};
ghost use Rattle.hm_model.specs.RowsSaid.{table_state_in as state_of, status_in as status_of, is_live_status as live, is_in_state as state_is_in, range_in as range_of};

use hm_data::{CatRow, Cause, Status, TableState};
use hm_names::{KeyRange, RowKey};

/// A namespace to create isn't there.
pub fn namespace_free(row: Option<&CatRow>) -> Option<Cause>
    ensures { result ≡ ns_free (option_copied row.entry) }
{
    match row {
        None => None,
        Some(_) => Some(Cause::NsExists),
    }
}

fn namespace_there(row: Option<&CatRow>) -> Option<Cause>
    ensures { result ≡ ns_there (option_copied row.entry) }
{
    match row {
        None => Some(Cause::NsMissing),
        Some(_) => None,
    }
}

/// A namespace to drop is there, and has no table.
pub fn namespace_empty(row: Option<&CatRow>, has_table: bool) -> Option<Cause>
    ensures { result ≡ ns_empty (option_copied row.entry) has_table }
{
    match namespace_there(row) {
        Some(cause) => Some(cause),
        None if has_table => Some(Cause::NsNotEmpty),
        None => None,
    }
}

fn table_absent(row: Option<&CatRow>) -> Option<Cause>
    ensures { result ≡ absent (option_copied row.entry) }
{
    match row {
        None => None,
        Some(_) => Some(Cause::TableExists),
    }
}

/// The namespace of a table to create is there, and the table isn't.
pub fn table_free(ns: Option<&CatRow>, table: Option<&CatRow>) -> Option<Cause>
    ensures { result ≡ free (option_copied ns.entry) (option_copied table.entry) }
{
    match namespace_there(ns) {
        Some(cause) => Some(cause),
        None => table_absent(table),
    }
}

/// The state of a table, by its row.
pub fn table_state_in(row: Option<&CatRow>) -> Option<TableState>
    ensures { result ≡ state_of (option_copied row.entry) }
{
    match row {
        Some(CatRow::Table { state, version: _ }) => Some(*state),
        _ => None,
    }
}

fn table_in(wanted: TableState, cause: Cause, state: Option<TableState>) -> Option<Cause>
    ensures { result ≡ found_in wanted cause state }
{
    match state {
        None => Some(Cause::TableMissing),
        Some(state) if wanted.number() == state.number() => None,
        Some(_) => Some(cause),
    }
}

/// A table is there and disabled.
pub fn table_disabled(table: Option<&CatRow>) -> Option<Cause>
    ensures { result ≡ disabled (option_copied table.entry) }
{
    table_in(
        TableState::Disabled,
        Cause::NotDisabled,
        table_state_in(table),
    )
}

/// A table is there and enabled.
pub fn table_enabled(table: Option<&CatRow>) -> Option<Cause>
    ensures { result ≡ enabled (option_copied table.entry) }
{
    table_in(
        TableState::Enabled,
        Cause::NotEnabled,
        table_state_in(table),
    )
}

/// A table is in a state.
pub fn is_in_state(wanted: TableState, state: Option<TableState>) -> bool
    ensures { result ≡ state_is_in wanted state }
{
    match state {
        None => false,
        Some(state) => wanted.number() == state.number(),
    }
}

/// The status of a region, by its row.
pub fn status_in(row: Option<&CatRow>) -> Option<Status>
    ensures { result ≡ status_of (option_copied row.entry) }
{
    match row {
        Some(
            CatRow::Region {
                range: _,
                status,
                parents: _,
            },
        ) => Some(*status),
        _ => None,
    }
}

/// A region is there, and live.
pub fn is_live(status: Option<Status>) -> bool
    ensures { result ≡ live status }
{
    match status {
        None => false,
        Some(status) => status.number() == Status::Live.number(),
    }
}

fn region_live(row: Option<&CatRow>) -> Option<Cause>
    ensures { result ≡ regions_live (option_copied row.entry ∷ []) }
{
    match status_in(row) {
        None => Some(Cause::RegionMissing),
        status if is_live(status) => None,
        _ => Some(Cause::RegionNotLive),
    }
}

/// A region of an enabled table is live.
pub fn region_ready(table: Option<&CatRow>, region: Option<&CatRow>) -> Option<Cause>
    ensures { result ≡ ready (option_copied table.entry) (option_copied region.entry) }
{
    match table_enabled(table) {
        Some(cause) => Some(cause),
        None => region_live(region),
    }
}

/// The range of a region, by its row.
pub fn range_in(row: Option<&CatRow>) -> Option<&KeyRange>
    ensures { option_copied result ≡ range_of (option_copied row.entry) }
{
    match row {
        Some(
            CatRow::Region {
                range,
                status: _,
                parents: _,
            },
        ) => Some(range),
        _ => None,
    }
}

// The key lies within the range and isn't its start.
fn key_inside(range: Option<&KeyRange>, key: &RowKey) -> Option<Cause>
    ensures { result ≡ is_inside (option_copied range.entry) key.now }
{
    match range {
        None => None,
        Some(range) if range.inner(key) => None,
        Some(_) => Some(Cause::KeyOutside),
    }
}

/// A region of an enabled table is live, and the key lies within its range.
pub fn can_split(table: Option<&CatRow>, region: Option<&CatRow>, key: &RowKey) -> Option<Cause>
    ensures { result ≡ may_split (option_copied table.entry) (option_copied region.entry) key.now }
{
    match region_ready(table, region) {
        Some(cause) => Some(cause),
        None => key_inside(range_in(region), key),
    }
}
