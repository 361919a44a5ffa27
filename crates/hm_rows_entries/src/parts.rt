//! Parts of a base, and new sheets: the bytes that spell each, both ways.
ghost use Rattle.hm_entry.specs.Fits.{EntryIsSpelled};

use crate::entries::is_spelled;
use hm_data::{
    Act, Args, Back, Cause, Entry, Goal, Part, Place, RegionState, Request, Row, Sheet, Status,
    TableState,
};
use hm_entry::decode;
use hm_names::{
    KeyRange, List, NameFault, Nonce, Ns, Pid, RegionName, RowKey, Same, ServerName, TableName,
};
use std::alloc::{AllocError, Global};
use std::test::Fail;

// After 20 entries and 9 procedures two parts follow, and one sheet is in force.
const HEAD: [u8; 35] = [
    8, 0, 20, 0, 0, 0, 0, 0, 0, 0, 9, 0, 0, 0, 0, 0, 0, 0, 2, 0, 0, 0, 0, 0, 0, 0, 1, 0, 1, 1, 0,
    1, 255, 0, 1,
];

const NAMESPACE: [u8; 8] = [8, 1, 4, 0, 0x73, 0x68, 0x6F, 0x70];

// Five ids were drawn for the table a:b, which is enabled and of version 7.
const TABLE: [u8; 26] = [
    8, 2, 1, 0, 97, 1, 0, 98, 5, 0, 0, 0, 0, 0, 0, 0, 1, 1, 7, 0, 0, 0, 0, 0, 0, 0,
];

// The same, of a table that has no row.
const GONE: [u8; 17] = [8, 2, 1, 0, 97, 1, 0, 98, 5, 0, 0, 0, 0, 0, 0, 0, 0];

// The region a:b,3 up to the key m, a live one, made of the region 2, is open at h1,16020,1.
const REGION: [u8; 48] = [
    8, 3, 1, 0, 97, 1, 0, 98, 3, 0, 0, 0, 0, 0, 0, 0, 0, 0, 1, 0, 109, 0, 1, 0, 2, 0, 0, 0, 0, 0,
    0, 0, 2, 1, 2, 0, 104, 49, 148, 62, 1, 0, 0, 0, 0, 0, 0, 0,
];

const SERVER: [u8; 17] = [8, 4, 2, 0, 104, 49, 148, 62, 1, 0, 0, 0, 0, 0, 0, 0, 1];

// The root 9 dropped the namespace shop, by the nonce 1:2.
const DROP: [u8; 42] = [
    8, 5, 9, 0, 0, 0, 0, 0, 0, 0, 1, 0, 0, 0, 0, 0, 0, 0, 2, 0, 0, 0, 0, 0, 0, 0, 2, 4, 0, 0x73,
    0x68, 0x6F, 0x70, 0, 0, 0, 0, 0, 0, 0, 0, 0,
];

// The root 9, which no request made, was to open the region a:b,3, whose table was gone.
const TRANSIT: [u8; 45] = [
    8, 5, 9, 0, 0, 0, 0, 0, 0, 0, 0, 0, 0, 0, 0, 0, 0, 0, 0, 0, 0, 0, 0, 0, 0, 0, 255, 1, 0, 97, 1,
    0, 98, 3, 0, 0, 0, 0, 0, 0, 0, 0, 0, 1, 5,
];

// The root 9 was of the crash of h1,16020,1.
const CRASH: [u8; 42] = [
    8, 5, 9, 0, 0, 0, 0, 0, 0, 0, 0, 0, 0, 0, 0, 0, 0, 0, 0, 0, 0, 0, 0, 0, 0, 0, 11, 2, 0, 104,
    49, 148, 62, 1, 0, 0, 0, 0, 0, 0, 0, 0,
];

const LAYOUT: [u8; 10] = [8, 6, 9, 0, 0, 0, 0, 0, 0, 0];

const ADOPT: [u8; 10] = [9, 1, 0, 1, 1, 0, 1, 255, 0, 1];

// Parts by their names, and the bytes that spell them.
const PARTS: [(&str, &[u8]); 7] = [
    ("head", &HEAD),
    ("namespace", &NAMESPACE),
    ("table", &TABLE),
    ("table without a row", &GONE),
    ("region", &REGION),
    ("server", &SERVER),
    ("layout", &LAYOUT),
];

const ROOTS: [(&str, &[u8]); 3] = [("request", &DROP), ("transit", &TRANSIT), ("crash", &CRASH)];

fn one<T: Drop>(alloc: Global, item: T) -> Result<List<T>, AllocError> {
    let mut items = Vec::with_capacity(alloc, 1)?;
    items.push(item)?;
    Ok(List::of(items))
}

fn sheets(alloc: Global) -> Result<List<Sheet>, AllocError> {
    let row = Row {
        act: Act::CheckNamespaceFree,
        next: 255,
        after: false,
        undo: Back::Edits,
    };
    let rows = one(alloc, row)?;
    one(alloc, Sheet { kind: 1, rows })
}

fn head(alloc: Global) -> Result<Part, NameFault> {
    let sheets = sheets(alloc)?;
    Ok(Part::Head {
        entries: 20,
        last: Pid(9),
        parts: 2,
        sheets,
    })
}

fn namespace(alloc: Global) -> Result<Part, NameFault> {
    let ns = Ns::parse(alloc, b"shop")?;
    Ok(Part::Namespace { ns })
}

fn table(alloc: Global, row: Option<(TableState, u64)>) -> Result<Part, NameFault> {
    let table = TableName::parse(alloc, b"a:b")?;
    Ok(Part::Table {
        table,
        drawn: 5,
        row,
    })
}

fn range(alloc: Global) -> Result<KeyRange, NameFault> {
    let start = RowKey::of(alloc, b"")?;
    let end = RowKey::of(alloc, b"m")?;
    Ok(KeyRange { start, end })
}

fn first_server(alloc: Global) -> Result<ServerName, NameFault> {
    ServerName::parse(alloc, b"h1,16020,1")
}

fn place(alloc: Global) -> Result<Place, NameFault> {
    let server = Some(first_server(alloc)?);
    let state = RegionState::Opened;
    Ok(Place { state, server })
}

// A name of a region, and its rows.
fn name_and_range(alloc: Global) -> Result<(RegionName, KeyRange), NameFault> {
    let region = RegionName::parse(alloc, b"a:b,3")?;
    let range = range(alloc)?;
    Ok((region, range))
}

// What a region is made of, and where it is.
fn parents_and_place(alloc: Global) -> Result<(List<u64>, Place), NameFault> {
    let parents = one(alloc, 2u64)?;
    let place = place(alloc)?;
    Ok((parents, place))
}

fn region(alloc: Global) -> Result<Part, NameFault> {
    let (region, range) = name_and_range(alloc)?;
    let (parents, place) = parents_and_place(alloc)?;
    Ok(Part::Region {
        region,
        range,
        status: Status::Live,
        parents,
        place,
    })
}

fn server(alloc: Global) -> Result<Part, NameFault> {
    let server = first_server(alloc)?;
    Ok(Part::Server {
        server,
        fenced: true,
    })
}

fn part(alloc: Global, name: &str) -> Result<Part, NameFault> {
    match name {
        "head" => head(alloc),
        "namespace" => namespace(alloc),
        "table" => table(alloc, Some((TableState::Enabled, 7))),
        "table without a row" => table(alloc, None),
        "region" => region(alloc),
        "server" => server(alloc),
        _ => Ok(Part::Layout { pid: Pid(9) }),
    }
}

fn drop_namespace(alloc: Global) -> Result<Args, NameFault> {
    let ns = Ns::parse(alloc, b"shop")?;
    Ok(Args::Root {
        request: Request::DropNamespace { ns },
        first: 0,
    })
}

fn transit(alloc: Global) -> Result<Args, NameFault> {
    let region = RegionName::parse(alloc, b"a:b,3")?;
    Ok(Args::Transit {
        region,
        goal: Goal::Assign,
        to: None,
    })
}

fn crash(alloc: Global) -> Result<Args, NameFault> {
    let server = first_server(alloc)?;
    Ok(Args::Crash { server })
}

fn args(alloc: Global, name: &str) -> Result<Args, NameFault> {
    match name {
        "request" => drop_namespace(alloc),
        "transit" => transit(alloc),
        _ => crash(alloc),
    }
}

// The part of the root 9. Only the request has a nonce, and the transit alone failed.
fn root(alloc: Global, name: &str) -> Result<Part, NameFault> {
    let args = args(alloc, name)?;
    let (group, number) = if name == "request" { (1, 2) } else { (0, 0) };
    let cause = if name == "transit" {
        Some(Cause::TableMissing)
    } else {
        None
    };
    Ok(Part::Root {
        pid: Pid(9),
        nonce: Nonce { group, number },
        args,
        cause,
    })
}

// Whether an entry is written as the bytes, and they are read as it.
fn both_ways(alloc: Global, entry: &Entry, bytes: &[u8]) -> Result<bool, AllocError>
    requires { EntryIsSpelled entry.now }
{
    let is_written = is_spelled(alloc, entry, bytes)?;
    match decode(alloc, bytes) {
        Ok(read) => {
            let is_same = read.same(entry);
            drop(read);
            Ok(is_written && is_same)
        }
        Err(_) => Ok(false),
    }
}

fn is_part(alloc: Global, part: Part, bytes: &[u8]) -> Result<bool, AllocError> {
    let entry = Entry::Base { part };
    let told = both_ways(alloc, &entry, bytes);
    drop(entry);
    told
}

fn are_new(alloc: Global, sheets: List<Sheet>, bytes: &[u8]) -> Result<bool, AllocError> {
    let entry = Entry::Adopt { sheets };
    let told = both_ways(alloc, &entry, bytes);
    drop(entry);
    told
}

#[test]
fn a_part_is_written_and_read_back(rt: HostRuntime) -> Result<(), Fail> {
    for (name, bytes) in PARTS {
        let part = part(rt.alloc(), name)?;
        assert!(rt; is_part(rt.alloc(), part, bytes)?, "{name}");
    }
    Ok(())
}

#[test]
fn a_root_is_written_and_read_back(rt: HostRuntime) -> Result<(), Fail> {
    for (name, bytes) in ROOTS {
        let root = root(rt.alloc(), name)?;
        assert!(rt; is_part(rt.alloc(), root, bytes)?, "{name}");
    }
    Ok(())
}

#[test]
fn new_sheets_are_written_and_read_back(rt: HostRuntime) -> Result<(), Fail> {
    let sheets = sheets(rt.alloc())?;
    assert!(rt; are_new(rt.alloc(), sheets, &ADOPT)?);
    Ok(())
}
