//! Calls of a catalog, and the ranges that splits and merges leave.

use crate::deeds::last;
use crate::requests::{ns, table};
use crate::texts::is_told;
use hm_catalog::{Catalog, Name};
use hm_data::{CatKey, CatRow, Edit, Status};
use hm_names::{KeyRange, TableName};
use std::alloc::{AllocError, AllocGlobal};
use std::process::Abort;

fn put_parents(out: &mut String, parents: &[u64]) -> Result<(), AllocError> {
    for id in parents {
        write!(out, " {id}")?;
    }
    out.push_str(";")
}

/// Puts the range of a region, and its status.
pub fn put_range(out: &mut String, range: &KeyRange, status: Status) -> Result<(), AllocError> {
    let start = &range.start;
    let end = &range.end;
    write!(out, "{start} {end} {status:?}")
}

// Puts a region with its range, its status and its parents.
fn put_region(out: &mut String, row: (&CatKey, &CatRow)) -> Result<(), AllocError> {
    if let (
        CatKey::Region(region),
        CatRow::Region {
            range,
            status,
            parents,
        },
    ) = row
    {
        write!(out, "{region} ")?;
        put_range(out, range, *status)?;
        put_parents(out, parents.as_slice())?;
    }
    Ok(())
}

// Puts the regions of a catalog by the numbers of their rows.
fn put_regions(out: &mut String, catalog: &Catalog) -> Result<(), AllocError> {
    for number in 0..catalog.len() {
        if let Some(row) = catalog.row(number) {
            put_region(out, row)?;
        }
    }
    Ok(())
}

const RANGES: &[(&str, &str)] = &[
    (
        "create t m\nsplit t,1 c",
        "t,1 \\- m Split;t,2 m \\- Live;t,3 \\- c Live 1;t,4 c m Live 1;",
    ),
    (
        "create t m\nsplit t,1 c\nmerge t,4 t,3",
        "t,1 \\- m Split;t,2 m \\- Live;t,3 \\- c Merged 1;t,4 c m Merged 1;t,5 \\- m Live 3 4;",
    ),
    (
        "create t m\nsplit t,2 x\nmerge t,1 t,3",
        "t,1 \\- m Merged;t,2 m \\- Split;t,3 m x Merged 2;t,4 x \\- Live 2;t,5 \\- x Live 1 3;",
    ),
    (
        "create t c m\nmerge t,3 t,1 t,2",
        "t,1 \\- c Merged;t,2 c m Merged;t,3 m \\- Merged;t,4 \\- \\- Live 1 2 3;",
    ),
    (
        "create t c m q\nmerge t,3 t,2 t,1",
        "t,1 \\- c Merged;t,2 c m Merged;t,3 m q Merged;t,4 q \\- Live;t,5 \\- q Live 1 2 3;",
    ),
    (
        "create t m\nsplit t,1 c\nmerge t,2 t,4 t,3",
        "t,1 \\- m Split;t,2 m \\- Merged;t,3 \\- c Merged 1;t,4 c m Merged 1;t,5 \\- \\- Live 3 4 2;",
    ),
    (
        "create t c m q\nmerge t,1 t,2 t,4",
        "t,1 \\- c Live;t,2 c m Live;t,3 m q Live;t,4 q \\- Live;",
    ),
    ("create t m\ndisable t\ndelete t", ""),
];

// The regions that some lines leave.
fn regions_after(rt: &(impl Abort + AllocGlobal), lines: &str) -> Result<String, AllocError> {
    let mut catalog = Catalog::start(rt.alloc())?;
    let mut text = last(rt, &mut catalog, lines).expect(rt, "memory");
    text.clear();
    let put = put_regions(&mut text, &catalog);
    drop(catalog);
    put.expect(rt, "memory");
    Ok(text)
}

#[test]
fn ranges_are_cut_and_joined(rt: HostRuntime) {
    for (lines, expected) in RANGES {
        is_told(&rt, lines, regions_after(&rt, lines), expected);
    }
}

// Adds a namespace, if it isn't there.
fn add(rt: &(impl Abort + AllocGlobal), catalog: &mut Catalog, name: &str) -> bool {
    let key = CatKey::Ns(ns(rt, name));
    if catalog.get(&key).is_some() || catalog.reserve(rt.alloc(), 1).is_err() {
        drop(key);
        return false;
    }
    catalog.apply(Edit {
        key,
        before: None,
        after: Some(CatRow::Ns),
    });
    true
}

// How many regions a table has.
fn region_count(catalog: &Catalog, table: &TableName) -> usize {
    let mut count: usize = 0;
    for _region in catalog.regions_of(table) {
        count = count.wrapping_add(1);
    }
    count
}

// How many regions a table has, whether it is there, and whether its namespace has a table.
fn facts(rt: &(impl Abort + AllocGlobal), catalog: &Catalog, name: &str) -> (usize, bool, bool) {
    let table = table(rt, name);
    let count = region_count(catalog, &table);
    let there = catalog.get(&Name::Table(&table)).is_some();
    let some = catalog.has_table(&table.ns);
    drop(table);
    (count, there, some)
}

// What the calls answer, one after another.
fn calls(rt: &(impl Abort + AllocGlobal), catalog: &mut Catalog) -> Result<String, AllocError> {
    let at_first = catalog.len();
    let new = add(rt, catalog, "a");
    let old = add(rt, catalog, "hbase");
    let mut text = last(rt, catalog, "create t c m\ncreate u")?;
    let at_last = catalog.len();
    let (count, there, some) = facts(rt, catalog, "t");
    let (none, lacks, empty) = facts(rt, catalog, "a:t");
    write!(text, " {at_first} {new} {old} {at_last}").expect(rt, "memory");
    write!(text, " {count} {there} {some}").expect(rt, "memory");
    write!(text, " {none} {lacks} {empty}").expect(rt, "memory");
    Ok(text)
}

#[test]
fn start_reserve_apply_get_len_has_table_and_regions_of(rt: HostRuntime) {
    let mut catalog = Catalog::start(rt.alloc()).expect(&rt, "memory");
    let told = calls(&rt, &mut catalog);
    drop(catalog);
    is_told(
        &rt,
        "calls",
        told,
        "2 2 true false 9 3 true true 0 false false",
    );
}
