//! The rows that procedures read of one catalog.

use crate::requests::request;
use crate::spans::catalog_of;
use crate::texts::is_told;
use hm_catalog::Catalog;
use hm_data::{Args, CatKey, CatRow};
use hm_reads::read;
use std::alloc::{AllocError, AllocGlobal};
use std::process::Abort;

// Two namespaces, and of its tables one with five regions: the second was split.
const ROWS: &str = "namespace n\ncreate t g m\ncreate u\ncreate n:b\ncreate n:a\nsplit t,2 j";

// Puts the keys of some rows, in their order.
fn put_keys(out: &mut String, rows: &[(CatKey, CatRow)]) -> Result<(), AllocError> {
    for (key, _row) in rows {
        match key {
            CatKey::Ns(ns) => write!(out, "{ns};")?,
            CatKey::Table(table) => write!(out, "{table};")?,
            CatKey::Region(region) => write!(out, "{region};")?,
        }
    }
    Ok(())
}

const REQUESTS: &[(&str, &str)] = &[
    ("namespace n", "n;"),
    ("namespace x", ""),
    ("drop-namespace n", "n;n:a;n:b;"),
    ("create n:c", "n;"),
    ("create t", "default;t;"),
    ("delete t", "t;t,1;t,2;t,3;t,7;t,8;"),
    ("enable u", "u;u,4;"),
    ("disable s", ""),
    ("modify t 2", "t;"),
    ("split t,3 q", "t;t,3;"),
    ("merge t,8 t,7", "t;t,7;t,8;"),
    ("merge t,8 t,1 t,7", "t;t,1;t,7;t,8;"),
    ("merge u,4 t,1", "t;u;t,1;u,4;"),
    ("move t,9", "t;"),
];

// Puts the keys that the request of a line reads.
fn put_asked(
    rt: &(impl Abort + AllocGlobal),
    catalog: &Catalog,
    line: &str,
    out: &mut String,
) -> Result<(), AllocError> {
    let request = request(rt, line);
    let args = Args::Root { request, first: 9 };
    let rows = read(rt.alloc(), catalog, &args);
    drop(args);
    let rows = rows?;
    let put = put_keys(out, rows.as_slice());
    drop(rows);
    put
}

fn asked(
    rt: &(impl Abort + AllocGlobal),
    catalog: &Catalog,
    line: &str,
) -> Result<String, AllocError> {
    let mut text = String::new(rt.alloc());
    put_asked(rt, catalog, line, &mut text).expect(rt, "memory");
    Ok(text)
}

#[test]
fn read_of_each_request(rt: HostRuntime) {
    let catalog = catalog_of(&rt, ROWS, "3");
    for (line, expected) in REQUESTS {
        is_told(&rt, line, asked(&rt, &catalog, line), expected);
    }
    drop(catalog);
}
