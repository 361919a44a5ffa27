//! What the catalog has to say for a table or a region.
ghost use Rattle.std.specs.Prelude.{◌≡◌, ◌↔◌, ◌⊎◌, IsTrue};
ghost use Rattle.hm_data.specs.declared.catalog.TableState.TheVariants as state_is;
ghost use Rattle.hm_model.specs.Catalog.{row_at};
ghost use Rattle.hm_base.specs.Fits.{HomeFits, RowFits};

use crate::stands::may_stand;
use hm_catalog::{Catalog, Name};
use hm_data::{CatRow, Place, Status, TableState};
use hm_names::{RegionName, TableName};

// Whether a table is enabled or disabled.
fn is_settled(state: TableState) -> bool
    ensures { IsTrue result ↔ ((state ≡ state_is.Enabled) ⊎ (state ≡ state_is.Disabled)) }
{
    matches!(state, TableState::Enabled | TableState::Disabled)
}

// Whether a table may have this row, if it has one: its namespace is there, and it is enabled or disabled.
pub(crate) fn row_fits(
    catalog: &Catalog,
    table: &TableName,
    row: &Option<(TableState, u64)>,
) -> bool
    ensures { IsTrue result ↔ RowFits (row_at catalog.now.rows) table.now row.now }
{
    match row {
        Some((state, _)) => catalog.get(&Name::Ns(&table.ns)).is_some() && is_settled(*state),
        None => true,
    }
}

// Whether the table of a region is there, in a state in which the region may have its place.
pub(crate) fn home_fits(
    catalog: &Catalog,
    region: &RegionName,
    status: Status,
    place: &Place,
) -> bool
    ensures { IsTrue result ↔ HomeFits (row_at catalog.now.rows) region.now status place.now }
{
    match catalog.get(&Name::Table(&region.table)) {
        Some(CatRow::Table { state, version: _ }) => may_stand(place, status, *state),
        _ => false,
    }
}
