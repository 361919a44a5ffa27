//! Requests in a catalog, one in a line: how many edits each has, or the first cause against it.
use crate::requests::request;
use crate::texts::is_told;
use hm_catalog::{Catalog, DeedWhy, deed, wrong_in};
use hm_data::{CatKey, Edit, Request};
use hm_names::{List, Same};
use std::alloc::{AllocError, AllocGlobal, Global};
use std::process::Abort;

// Whether an edit tells the row that is there.
fn tells(catalog: &Catalog, edit: &Edit) -> bool {
    match (&edit.before, catalog.get(&edit.key)) {
        (None, None) => true,
        (Some(row), Some(there)) => row.same(there),
        _ => false,
    }
}

// Sets what an edit leaves, if it tells the row that is there.
fn set(catalog: &mut Catalog, alloc: Global, edit: Edit) -> bool {
    if !tells(catalog, &edit) || catalog.reserve(alloc, 1).is_err() {
        drop(edit);
        return false;
    }
    let Edit { key, before, after } = edit;
    drop(before);
    catalog.set(key, after);
    true
}

// Sets what some edits leave: how many of them tell the row that is there.
fn set_all(catalog: &mut Catalog, alloc: Global, edits: List<Edit>) -> usize {
    let mut count: usize = 0;
    for edit in edits.into_vec() {
        if set(catalog, alloc, edit) {
            count = count.wrapping_add(1);
        }
    }
    count
}

// The lowest number of a region that no region has, where all are of one table and none was removed.
fn next_id(catalog: &Catalog) -> u64 {
    let mut id: u64 = 1;
    for (key, _row) in catalog.rows() {
        if matches!(key, CatKey::Region(_)) {
            id = id.wrapping_add(1);
        }
    }
    id
}

// Does what a request asks for, with the first id that was drawn for it, and puts what became of it.
fn act(
    alloc: Global,
    catalog: &mut Catalog,
    request: &Request,
    out: &mut String,
) -> Result<(), AllocError> {
    if let Some(number) = wrong_in(request) {
        return write!(out, "wrong {number}");
    }
    let first = next_id(catalog);
    if first < 1 || first >= 0x1_0000_0000 {
        return out.push_str("no id");
    }
    match deed(alloc, request, first, catalog) {
        Err(DeedWhy::Memory) => Err(AllocError),
        Err(DeedWhy::Cause(cause)) => write!(out, "{cause:?}"),
        Ok(edits) => write!(out, "{}", set_all(catalog, alloc, edits)),
    }
}

/// Does what the lines ask for, one after another. Tells how many edits the last has; the first cause against it; or what is
/// wrong with it by itself.
pub fn last(
    rt: &(impl Abort + AllocGlobal),
    catalog: &mut Catalog,
    lines: &str,
) -> Result<String, AllocError> {
    let mut text = String::new(rt.alloc());
    for line in lines.split('\n') {
        text.clear();
        let request = request(rt, line);
        let acted = act(rt.alloc(), catalog, &request, &mut text);
        drop(request);
        acted.expect(rt, "memory");
    }
    Ok(text)
}

const NAMESPACES: &[(&str, &str)] = &[
    ("namespace a", "1"),
    ("namespace default", "NsExists"),
    ("drop-namespace a", "NsMissing"),
    ("drop-namespace hbase", "wrong 1"),
    ("namespace a\ncreate a:t\ndrop-namespace a", "NsNotEmpty"),
    (
        "namespace b\nnamespace a\ncreate b:t\ndrop-namespace a",
        "1",
    ),
    (
        "namespace a\ncreate a:t\ndisable a:t\ndelete a:t\ndrop-namespace a",
        "1",
    ),
];

const TABLES: &[(&str, &str)] = &[
    ("create a:t", "NsMissing"),
    ("create t m", "3"),
    ("create t m m", "wrong 2"),
    ("create t\ncreate t", "TableExists"),
    ("delete t", "TableMissing"),
    ("create t\ndelete t", "NotDisabled"),
    ("create s\ncreate t m\ncreate u\ndisable t\ndelete t", "3"),
    ("enable t", "TableMissing"),
    ("create t\nenable t", "NotDisabled"),
    ("create t\ndisable t\nenable t", "1"),
    ("disable t", "TableMissing"),
    ("create t\ndisable t\ndisable t", "NotEnabled"),
    ("create t\ndisable t", "1"),
    ("modify t 2", "TableMissing"),
    ("create t\nmodify t 2", "NotDisabled"),
    ("create t\ndisable t\nmodify t 2", "1"),
];

const SPLITS: &[(&str, &str)] = &[
    ("split t,1 m", "TableMissing"),
    ("split t,1 \\-", "wrong 5"),
    (
        "create t\nsplit t,1 m\ndisable t\nsplit t,1 m",
        "NotEnabled",
    ),
    ("create t\nsplit t,2 m", "RegionMissing"),
    ("create t\nsplit t,1 m\nsplit t,1 c", "RegionNotLive"),
    ("create t\nsplit t,1 m\nsplit t,3 c", "KeyOutside"),
    ("create t m\nsplit t,2 m", "KeyOutside"),
    ("create t m\nsplit t,2 n", "3"),
];

const MERGES: &[(&str, &str)] = &[
    ("merge t,1 t,2", "TableMissing"),
    ("merge t,1 t,1", "wrong 4"),
    ("merge t,1 u,2", "wrong 4"),
    ("create t m\ndisable t\nmerge t,1 t,3", "NotEnabled"),
    ("create t m\nsplit t,1 c\nmerge t,1 t,9", "RegionMissing"),
    ("create t c m\nsplit t,1 a\nmerge t,3 t,1", "RegionNotLive"),
    ("create t c m\nmerge t,1 t,3", "NotAdjacent"),
    ("create t c m\nmerge t,3 t,2", "3"),
];

const LARGE_MERGES: &[(&str, &str)] = &[
    ("merge t,1 t,2 t,1", "wrong 4"),
    ("merge t,1 t,2 u,3", "wrong 4"),
    ("merge t,1 t,2 t,3", "TableMissing"),
    ("create t c m\ndisable t\nmerge t,1 t,2 t,3", "NotEnabled"),
    ("create t c m\nmerge t,1 t,2 t,4", "RegionMissing"),
    (
        "create t c m\nsplit t,2 g\nmerge t,1 t,2 t,3",
        "RegionNotLive",
    ),
    ("create t c m q\nmerge t,1 t,2 t,4", "NotAdjacent"),
    ("create t c m q\nmerge t,4 t,1 t,3", "NotAdjacent"),
    ("create t c m\nmerge t,3 t,1 t,2", "4"),
    (
        "create t a b c d e f g h i\nmerge t,1 t,2 t,3 t,4 t,5 t,6 t,7 t,8 t,9 t,10",
        "11",
    ),
];

const MOVES: &[(&str, &str)] = &[
    ("move t,1", "TableMissing"),
    ("create t\ndisable t\nmove t,2", "NotEnabled"),
    ("create t\nmove t,2", "RegionMissing"),
    ("create t\nsplit t,1 m\nmove t,1", "RegionNotLive"),
    ("create t\nmove t,1 h1,16020,1", "0"),
];

// What became of the last line.
fn deed_of(rt: &(impl Abort + AllocGlobal), lines: &str) -> Result<String, AllocError> {
    let mut catalog = Catalog::start(rt.alloc())?;
    let told = last(rt, &mut catalog, lines);
    drop(catalog);
    told
}

#[test]
fn deed_of_each_request_with_each_of_its_causes(rt: HostRuntime) {
    for cases in [NAMESPACES, TABLES, SPLITS, MERGES, LARGE_MERGES, MOVES] {
        for (lines, expected) in cases {
            is_told(&rt, lines, deed_of(&rt, lines), expected);
        }
    }
}

// A merge of the first regions of a table, and what is wrong with it by itself.
const COUNTS: &[(&str, &str)] = &[
    ("merge", "Some(4)"),
    ("merge t,1", "Some(4)"),
    ("merge t,1 t,2", "None"),
    ("merge t,1 t,2 t,3 t,4 t,5 t,6 t,7 t,8 t,9 t,10", "None"),
    (
        "merge t,1 t,2 t,3 t,4 t,5 t,6 t,7 t,8 t,9 t,10 t,11",
        "Some(4)",
    ),
];

fn wrong_of(rt: &(impl Abort + AllocGlobal), line: &str) -> Result<String, AllocError> {
    let request = request(rt, line);
    let wrong = wrong_in(&request);
    drop(request);
    format!(in rt.alloc(); "{wrong:?}")
}

#[test]
fn a_merge_has_two_to_ten_regions(rt: HostRuntime) {
    for (line, expected) in COUNTS {
        is_told(&rt, line, wrong_of(&rt, line), expected);
    }
}
