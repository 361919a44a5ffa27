//! Rows that are found in a catalog by their keys, and rows that stand together in it.

use crate::calls::put_range;
use crate::deeds::last;
use crate::requests::{first_word, ns, number, region, table};
use crate::texts::is_told;
use hm_catalog::{Catalog, Name, RowsOf, Span};
use hm_data::{CatKey, CatRow};
use hm_names::TableName;
use std::alloc::{AllocError, AllocGlobal};
use std::process::Abort;

// Of the tables t has two regions that were split, u is disabled, and s was deleted.
const ROWS: &str =
    "namespace n\ncreate t g m\ncreate u\ncreate n:b\ncreate n:a\nsplit t,2 j\nsplit t,3 r\ncreate s k\ndisable s\ndelete s\ndisable u\nmodify u 5";

// A key finds its row with the key, and none where it has no row or lost it.
const FOUND: &[(&str, &str)] = &[
    ("ns n", "ns n;"),
    ("ns hbase", "ns hbase;"),
    ("ns x", ""),
    ("table t", "table t Enabled 1;"),
    ("table u", "table u Disabled 5;"),
    ("table n:t", ""),
    ("table s", ""),
    ("region t,2", r"region t,2 g m Split;"),
    ("region t,10", r"region t,10 r \- Live;"),
    ("region n:b,5", r"region n:b,5 \- \- Live;"),
    ("region t,4", ""),
    ("region s,11", ""),
];

// Keys that stand together give the rows that they have, in key order, and none where they have none.
const TOGETHER: &[(&str, &str)] = &[
    ("tables default", "table t Enabled 1;table u Disabled 5;"),
    ("tables n", "table n:a Enabled 1;table n:b Enabled 1;"),
    ("tables hbase", ""),
    ("tables x", ""),
    (
        "regions t",
        r"region t,1 \- g Live;region t,2 g m Split;region t,3 m \- Split;region t,7 g j Live;region t,8 j m Live;region t,9 m r Live;region t,10 r \- Live;",
    ),
    ("regions u", r"region u,4 \- \- Live;"),
    ("regions s", ""),
    ("regions x", ""),
    (
        "all-regions",
        r"region t,1 \- g Live;region t,2 g m Split;region t,3 m \- Split;region t,7 g j Live;region t,8 j m Live;region t,9 m r Live;region t,10 r \- Live;region u,4 \- \- Live;region n:a,6 \- \- Live;region n:b,5 \- \- Live;",
    ),
    (
        "numbers t 2 6",
        r"region t,2 g m Split;region t,3 m \- Split;region t,7 g j Live;",
    ),
    ("numbers t 4 3", ""),
    ("numbers u 4 1", r"region u,4 \- \- Live;"),
    ("numbers s 11 2", ""),
];

// The regions of a table are told by name, in the order of their numbers.
const REGIONS: &[(&str, &str)] = &[
    ("names t", "t,1;t,2;t,3;t,7;t,8;t,9;t,10;"),
    ("names u", "u,4;"),
    ("names n:a", "n:a,6;"),
    ("names s", ""),
    ("names x", ""),
];

/// The catalog that some lines leave, of which the last is told so.
pub fn catalog_of(rt: &(impl Abort + AllocGlobal), lines: &str, expected: &str) -> Catalog {
    let mut catalog = Catalog::start(rt.alloc()).expect(rt, "memory");
    let told = last(rt, &mut catalog, lines);
    is_told(rt, lines, told, expected);
    catalog
}

// Puts a row with its key.
fn put_row(out: &mut String, row: (&CatKey, &CatRow)) -> Result<(), AllocError> {
    match row {
        (CatKey::Ns(ns), CatRow::Ns) => write!(out, "ns {ns};"),
        (CatKey::Table(table), CatRow::Table { state, version }) => {
            write!(out, "table {table} {state:?} {version};")
        }
        (
            CatKey::Region(region),
            CatRow::Region {
                range,
                status,
                parents: _,
            },
        ) => {
            write!(out, "region {region} ")?;
            put_range(out, range, *status)?;
            out.push_str(";")
        }
        _ => out.push_str("another row;"),
    }
}

// Puts rows one after another.
fn put_rows(out: &mut String, rows: RowsOf<'_>) -> Result<(), AllocError> {
    for row in rows {
        put_row(out, row)?;
    }
    Ok(())
}

// Puts the row that is found by a name.
fn put_found(out: &mut String, catalog: &Catalog, name: &Name<'_>) -> Result<(), AllocError> {
    match catalog.find(name) {
        Some(row) => put_row(out, row),
        None => Ok(()),
    }
}

// Puts the names of a table's regions.
fn put_names(out: &mut String, catalog: &Catalog, table: &TableName) -> Result<(), AllocError> {
    for region in catalog.regions_of(table) {
        write!(out, "{region};")?;
    }
    Ok(())
}

// Puts the rows of a namespace: its own, or its tables'.
fn put_of_ns(
    rt: &(impl Abort + AllocGlobal),
    out: &mut String,
    catalog: &Catalog,
    question: (&str, &str),
) -> Result<(), AllocError> {
    let (verb, name) = question;
    let ns = ns(rt, name);
    let put = if verb == "ns" {
        put_found(out, catalog, &Name::Ns(&ns))
    } else {
        put_rows(out, catalog.rows_of(Span::Tables(&ns)))
    };
    drop(ns);
    put
}

// Puts the row of a region.
fn put_of_region(
    rt: &(impl Abort + AllocGlobal),
    out: &mut String,
    catalog: &Catalog,
    name: &str,
) -> Result<(), AllocError> {
    let region = region(rt, name);
    let put = put_found(out, catalog, &Name::Region(&region));
    drop(region);
    put
}

// Puts what is told of a table: its row, the names of its regions, their rows, or those with some numbers.
fn put_of(
    rt: &impl Abort,
    out: &mut String,
    catalog: &Catalog,
    table: &TableName,
    question: (&str, &str),
) -> Result<(), AllocError> {
    let (verb, numbers) = question;
    match verb {
        "table" => put_found(out, catalog, &Name::Table(table)),
        "names" => put_names(out, catalog, table),
        "regions" => put_rows(out, catalog.rows_of(Span::Regions(table))),
        _ => {
            let (first, count) = first_word(numbers);
            let span = Span::Numbers {
                table,
                first: number(rt, first),
                count: number(rt, count),
            };
            put_rows(out, catalog.rows_of(span))
        }
    }
}

fn put_of_table(
    rt: &(impl Abort + AllocGlobal),
    out: &mut String,
    catalog: &Catalog,
    question: (&str, &str),
) -> Result<(), AllocError> {
    let (verb, words) = question;
    let (name, numbers) = first_word(words);
    let table = table(rt, name);
    let put = put_of(rt, out, catalog, &table, (verb, numbers));
    drop(table);
    put
}

// What is told where a question asks for it.
fn told(
    rt: &(impl Abort + AllocGlobal),
    catalog: &Catalog,
    question: &str,
) -> Result<String, AllocError> {
    let mut text = String::new(rt.alloc());
    let (verb, words) = first_word(question);
    let put = match verb {
        "ns" | "tables" => put_of_ns(rt, &mut text, catalog, (verb, words)),
        "region" => put_of_region(rt, &mut text, catalog, words),
        "all-regions" => put_rows(&mut text, catalog.rows_of(Span::AllRegions)),
        _ => put_of_table(rt, &mut text, catalog, (verb, words)),
    };
    put.expect(rt, "memory");
    Ok(text)
}

#[test]
fn find_rows_of_and_regions_of_with_and_without_rows(rt: HostRuntime) {
    let catalog = catalog_of(&rt, ROWS, "1");
    for cases in [FOUND, TOGETHER, REGIONS] {
        for (question, expected) in cases {
            is_told(&rt, question, told(&rt, &catalog, question), expected);
        }
    }
    drop(catalog);
}
