//! Names, and requests as lines of words.
use hm_data::Request;
use hm_names::{List, Ns, RegionName, RowKey, ServerName, TableName, parse_decimal};
use std::alloc::AllocGlobal;
use std::process::Abort;

pub fn ns(rt: &(impl Abort + AllocGlobal), name: &str) -> Ns {
    Ns::parse(rt.alloc(), name.as_bytes()).expect(rt, "a namespace")
}

pub fn table(rt: &(impl Abort + AllocGlobal), name: &str) -> TableName {
    TableName::parse(rt.alloc(), name.as_bytes()).expect(rt, "a table")
}

pub fn region(rt: &(impl Abort + AllocGlobal), name: &str) -> RegionName {
    RegionName::parse(rt.alloc(), name.as_bytes()).expect(rt, "a region")
}

pub fn number(rt: &impl Abort, word: &str) -> u64 {
    parse_decimal(word.as_bytes()).expect(rt, "a number")
}

fn key(rt: &(impl Abort + AllocGlobal), word: &str) -> RowKey {
    RowKey::parse(rt.alloc(), word.as_bytes()).expect(rt, "a key")
}

fn keys(rt: &(impl Abort + AllocGlobal), words: &str) -> List<RowKey> {
    let mut keys = Vec::new(rt.alloc());
    for word in words.split(' ') {
        if !word.is_empty() {
            keys.push(key(rt, word)).expect(rt, "memory");
        }
    }
    List::of(keys)
}

fn regions(rt: &(impl Abort + AllocGlobal), words: &str) -> List<RegionName> {
    let mut regions = Vec::new(rt.alloc());
    for word in words.split(' ') {
        if !word.is_empty() {
            regions.push(region(rt, word)).expect(rt, "memory");
        }
    }
    List::of(regions)
}

fn perhaps_server(rt: &(impl Abort + AllocGlobal), word: &str) -> Option<ServerName> {
    if word.is_empty() {
        return None;
    }
    Some(ServerName::parse(rt.alloc(), word.as_bytes()).expect(rt, "a server"))
}

/// The first word, and the others.
pub fn first_word(words: &str) -> (&str, &str) {
    match words.split_once(' ') {
        Some(parts) => parts,
        None => (words, ""),
    }
}

// What is asked for a region, or for some.
fn region_request(rt: &(impl Abort + AllocGlobal), verb: &str, words: &str) -> Request {
    let (name, more) = first_word(words);
    match verb {
        "split" => Request::SplitRegion {
            region: region(rt, name),
            key: key(rt, more),
        },
        "merge" => Request::MergeRegions {
            regions: regions(rt, words),
        },
        _ => Request::Move {
            region: region(rt, name),
            to: perhaps_server(rt, more),
        },
    }
}

/// A request: its verb, and names.
pub fn request(rt: &(impl Abort + AllocGlobal), line: &str) -> Request {
    let (verb, words) = first_word(line);
    let (name, more) = first_word(words);
    match verb {
        "namespace" => Request::CreateNamespace { ns: ns(rt, name) },
        "drop-namespace" => Request::DropNamespace { ns: ns(rt, name) },
        "create" => Request::CreateTable {
            table: table(rt, name),
            keys: keys(rt, more),
        },
        "delete" => Request::DeleteTable {
            table: table(rt, name),
        },
        "enable" => Request::EnableTable {
            table: table(rt, name),
        },
        "disable" => Request::DisableTable {
            table: table(rt, name),
        },
        "modify" => Request::ModifyTable {
            table: table(rt, name),
            version: number(rt, more),
        },
        _ => region_request(rt, verb, words),
    }
}
