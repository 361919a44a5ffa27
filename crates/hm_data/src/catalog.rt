ghost use Rattle.std.specs.Prelude.{◌≡◌, IfSome, Some};

use crate::pair::{copy_three, copy_two};
use hm_hints::Hinted;
use hm_names::{Copied, KeyRange, List, Ns, RegionName, Same, TableName, front_hint};
use std::alloc::{AllocError, Global};

/// What a row of the catalog is of. Namespaces order before tables, tables before regions, and each by name.
#[derive(Debug, Drop, PartialEq, Eq, PartialOrd, Ord)]
pub enum CatKey {
    Ns(Ns),
    Table(TableName),
    Region(RegionName),
}

impl Copied for CatKey {
    fn copy(&self, alloc: Global) -> Result<CatKey, AllocError> {
        match self {
            CatKey::Ns(ns) => Ok(CatKey::Ns(ns.copy(alloc)?)),
            CatKey::Table(table) => Ok(CatKey::Table(table.copy(alloc)?)),
            CatKey::Region(region) => Ok(CatKey::Region(region.copy(alloc)?)),
        }
    }
}

impl Same for CatKey {
    fn same(&self, other: &CatKey) -> bool {
        match self {
            CatKey::Ns(ns) => match other {
                CatKey::Ns(other_ns) => ns.same(other_ns),
                _ => false,
            },
            CatKey::Table(table) => match other {
                CatKey::Table(other_table) => table.same(other_table),
                _ => false,
            },
            CatKey::Region(region) => match other {
                CatKey::Region(other_region) => region.same(other_region),
                _ => false,
            },
        }
    }
}

impl Hinted for CatKey {
    ghost use Rattle.hm_data.specs.Keys.{key_hint};
    ghost use Rattle.hm_data.specs.HintLaws.{keys_rise};
    ghost use Rattle.hm_data.specs.declared.catalog.CatKey.TheVariants.{Ns, Table, Region};

    ghost hint_of = { key_hint };

    ghost rises = { elim [ Ns a ↦ elim [ Ns b ↦ keys_rise (Ns a) (Ns b) | Table b ↦ keys_rise (Ns a) (Table b) | Region b ↦ keys_rise (Ns a) (Region b) ] | Table a ↦ elim [ Ns b ↦ keys_rise (Table a) (Ns b) | Table b ↦ keys_rise (Table a) (Table b) | Region b ↦ keys_rise (Table a) (Region b) ] | Region a ↦ elim [ Ns b ↦ keys_rise (Region a) (Ns b) | Table b ↦ keys_rise (Region a) (Table b) | Region b ↦ keys_rise (Region a) (Region b) ] ] };

    fn own_hint(&self) -> u64 {
        match self {
            CatKey::Ns(ns) => front_hint(0, ns.as_bytes()),
            CatKey::Table(table) => front_hint(1, table.ns.as_bytes()),
            CatKey::Region(region) => front_hint(2, region.table.ns.as_bytes()),
        }
    }
}

/// How far a table is enabled.
#[derive(Clone, Copy, Debug, PartialEq, Eq)]
pub enum TableState {
    Enabling,
    Enabled,
    Disabling,
    Disabled,
}

impl Copied for TableState {
    fn copy(&self, _alloc: Global) -> Result<TableState, AllocError> {
        Ok(*self)
    }
}

impl Same for TableState {
    fn same(&self, other: &TableState) -> bool {
        self == other
    }
}

impl TableState {
    ghost use Rattle.hm_data.specs.Numbers.{table_state_number, table_state_of};

    /// The number of the state.
    pub fn number(self) -> u8
        ensures number { result ≡ table_state_number self }
        ensures back { table_state_of result ≡ Some self }
    {
        self as u8
    }

    /// The state of a number.
    pub fn of(number: u8) -> Option<TableState>
        ensures value { result ≡ table_state_of number }
        ensures back { IfSome result (λ x. table_state_number x ≡ number) }
    {
        match number {
            0 => Some(TableState::Enabling),
            1 => Some(TableState::Enabled),
            2 => Some(TableState::Disabling),
            3 => Some(TableState::Disabled),
            _ => None,
        }
    }
}

/// What became of a region: it is live, or others came from it.
#[derive(Clone, Copy, Debug, PartialEq, Eq)]
pub enum Status {
    Live,
    Split,
    Merged,
}

impl Copied for Status {
    fn copy(&self, _alloc: Global) -> Result<Status, AllocError> {
        Ok(*self)
    }
}

impl Same for Status {
    fn same(&self, other: &Status) -> bool {
        self == other
    }
}

impl Status {
    ghost use Rattle.hm_data.specs.Numbers.{status_number, status_of};

    /// The number of the status.
    pub fn number(self) -> u8
        ensures number { result ≡ status_number self }
        ensures back { status_of result ≡ Some self }
    {
        self as u8
    }

    /// The status of a number.
    pub fn of(number: u8) -> Option<Status>
        ensures value { result ≡ status_of number }
        ensures back { IfSome result (λ x. status_number x ≡ number) }
    {
        match number {
            0 => Some(Status::Live),
            1 => Some(Status::Split),
            2 => Some(Status::Merged),
            _ => None,
        }
    }
}

/// A row of the catalog.
#[derive(Debug, Drop, PartialEq, Eq)]
pub enum CatRow {
    Ns,
    /// The version stands for the descriptor of the table.
    Table {
        state: TableState,
        version: u64,
    },
    /// The parents are the ids, in the same table, of the regions that this one came from.
    Region {
        range: KeyRange,
        status: Status,
        parents: List<u64>,
    },
}

impl Copied for CatRow {
    fn copy(&self, alloc: Global) -> Result<CatRow, AllocError> {
        match self {
            CatRow::Ns => Ok(CatRow::Ns),
            CatRow::Table { state, version } => Ok(CatRow::Table {
                state: *state,
                version: *version,
            }),
            CatRow::Region {
                range,
                status,
                parents,
            } => {
                let status = *status;
                let (range, parents) = copy_two(range, parents, alloc)?;
                Ok(CatRow::Region {
                    range,
                    status,
                    parents,
                })
            }
        }
    }
}

impl Same for CatRow {
    fn same(&self, other: &CatRow) -> bool {
        match self {
            CatRow::Ns => matches!(other, CatRow::Ns),
            CatRow::Table { state, version } => match other {
                CatRow::Table {
                    state: other_state,
                    version: other_version,
                } => state.same(other_state) && version == other_version,
                _ => false,
            },
            CatRow::Region {
                range,
                status,
                parents,
            } => match other {
                CatRow::Region {
                    range: other_range,
                    status: other_status,
                    parents: other_parents,
                } => range.same(other_range)
                    && status.same(other_status)
                    && parents.same(other_parents),
                _ => false,
            },
        }
    }
}

/// A row that is added, changed or removed: what stood at the key before, and what stands there after.
#[derive(Drop)]
pub struct Edit {
    pub key: CatKey,
    pub before: Option<CatRow>,
    pub after: Option<CatRow>,
}

impl Copied for Edit {
    fn copy(&self, alloc: Global) -> Result<Edit, AllocError> {
        let (key, before, after) = copy_three(&self.key, &self.before, &self.after, alloc)?;
        Ok(Edit { key, before, after })
    }
}

impl Same for Edit {
    fn same(&self, other: &Edit) -> bool {
        self.key.same(&other.key)
            && self.before.same(&other.before)
            && self.after.same(&other.after)
    }
}
