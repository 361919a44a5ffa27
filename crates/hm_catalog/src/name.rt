//! Keys that are looked for by names that aren't owned.
ghost use Rattle.std.specs.Prelude.{◌≡◌, []};
ghost use Rattle.std.specs.Ordering.{nat_cmp};
ghost use Rattle.hm_data.specs.Keys.{key_cmp};
ghost use Rattle.hm_catalog.specs.Regions.{first_region};

use hm_data::CatKey;
use hm_data::laws::keys_order_by_name;
use hm_index::Sought;
use hm_names::laws::names_order_by_parts;
use hm_names::{Ns, RegionName, TableName, front_hint};
use std::cmp::Ordering;

/// A key, by the name that it is of.
#[derive(Drop)]
pub enum Name<'a> {
    Ns(&'a Ns),
    Table(&'a TableName),
    Region(&'a RegionName),
    /// Where the tables of a namespace begin.
    FirstTable(&'a Ns),
    /// Where the regions of a table begin that have this number or a higher one.
    RegionsFrom(&'a TableName, u64),
    /// Where all regions begin.
    FirstRegion,
}

impl<'a> Sought<CatKey> for Name<'a> {
    ghost use Rattle.hm_catalog.specs.Kept.{key_of};

    ghost stands_for = { key_of };

    fn compared(&self, key: &CatKey) -> Ordering {
        keys_order_by_name();
        names_order_by_parts();
        match key {
            CatKey::Ns(ns) => match self {
                Name::Ns(other) => ns.cmp(other),
                _ => Ordering::Less,
            },
            CatKey::Table(table) => match self {
                Name::Ns(_) => Ordering::Greater,
                Name::Table(other) => table.cmp(other),
                Name::FirstTable(ns) => after_namespace(table, ns),
                _ => Ordering::Less,
            },
            CatKey::Region(region) => match self {
                Name::Region(other) => region.cmp(other),
                Name::RegionsFrom(table, id) => after_number(region, table, *id),
                Name::FirstRegion => after_tables(region),
                _ => Ordering::Greater,
            },
        }
    }

    fn hint(&self) -> u64 {
        match self {
            Name::Ns(ns) => front_hint(0, ns.as_bytes()),
            Name::Table(table) => front_hint(1, table.ns.as_bytes()),
            Name::Region(region) => front_hint(2, region.table.ns.as_bytes()),
            Name::FirstTable(ns) => front_hint(1, ns.as_bytes()),
            Name::RegionsFrom(table, _) => front_hint(2, table.ns.as_bytes()),
            Name::FirstRegion => front_hint(2, b""),
        }
    }
}

// How a table compares with the place where those of a namespace begin.
fn after_namespace(table: &TableName, ns: &Ns) -> Ordering
    ensures { result ≡ key_cmp (CatKey.Table table.now) (CatKey.Table (record { ns = ns.now; qualifier = [] })) }
{
    names_order_by_parts();
    let rest = table.qualifier.as_bytes().cmp(b"".as_slice());
    table.ns.cmp(ns).then(rest)
}

// How a region compares with the place where those of a table begin that have this number or a higher one.
fn after_number(region: &RegionName, table: &TableName, id: u64) -> Ordering
    ensures { result ≡ key_cmp (CatKey.Region region.now) (CatKey.Region (record { table = table.now; id = id })) }
{
    names_order_by_parts();
    region.table.cmp(table).then(region.id.cmp(&id))
}

// How a region compares with the place where all regions begin.
fn after_tables(region: &RegionName) -> Ordering
    ensures { result ≡ key_cmp (CatKey.Region region.now) (CatKey.Region first_region) }
{
    names_order_by_parts();
    let table = &region.table;
    let ns = table.ns.as_bytes().cmp(b"".as_slice());
    let qualifier = table.qualifier.as_bytes().cmp(b"".as_slice());
    ns.then(qualifier).then(region.id.cmp(&0))
}
