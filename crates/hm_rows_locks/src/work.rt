//! What procedures work on, told by words.
ghost use Rattle.hm_locks.specs.Needs.{HasFirst};

use hm_data::{Args, Goal, Request};
use hm_names::{List, Ns, Pid, RegionName, RowKey, ServerName, TableName};
use std::alloc::AllocGlobal;
use std::process::Abort;

/// The first word, and the others.
pub fn first_word(words: &str) -> (&str, &str) {
    match words.split_once(' ') {
        Some(parts) => parts,
        None => (words, ""),
    }
}

pub fn ns(rt: &(impl Abort + AllocGlobal), name: &str) -> Ns {
    Ns::parse(rt.alloc(), name.as_bytes()).expect(rt, "a namespace")
}

pub fn table(rt: &(impl Abort + AllocGlobal), name: &str) -> TableName {
    TableName::parse(rt.alloc(), name.as_bytes()).expect(rt, "a table")
}

pub fn region(rt: &(impl Abort + AllocGlobal), name: &str) -> RegionName {
    RegionName::parse(rt.alloc(), name.as_bytes()).expect(rt, "a region")
}

fn server(rt: &(impl Abort + AllocGlobal), name: &str) -> ServerName {
    ServerName::parse(rt.alloc(), name.as_bytes()).expect(rt, "a server")
}

fn perhaps_server(rt: &(impl Abort + AllocGlobal), name: &str) -> Option<ServerName> {
    if name.is_empty() {
        return None;
    }
    Some(server(rt, name))
}

fn regions(rt: &(impl Abort + AllocGlobal), names: &str) -> List<RegionName> {
    let mut regions = Vec::new(rt.alloc());
    for name in names.split(' ') {
        regions.push(region(rt, name)).expect(rt, "memory");
    }
    List::of(regions)
}

// What is asked for a region, or for some. A split is at the key m.
fn region_request(rt: &(impl Abort + AllocGlobal), verb: &str, words: &str) -> Request {
    let (name, to) = first_word(words);
    match verb {
        "split" => Request::SplitRegion {
            region: region(rt, name),
            key: RowKey::parse(rt.alloc(), b"m").expect(rt, "a key"),
        },
        "merge" => Request::MergeRegions {
            regions: regions(rt, words),
        },
        _ => {
            assert!(rt; verb == "move");
            Request::Move {
                region: region(rt, name),
                to: perhaps_server(rt, to),
            }
        }
    }
}

fn request(rt: &(impl Abort + AllocGlobal), verb: &str, words: &str) -> Request {
    match verb {
        "namespace" => Request::CreateNamespace { ns: ns(rt, words) },
        "drop-namespace" => Request::DropNamespace { ns: ns(rt, words) },
        "create" => Request::CreateTable {
            table: table(rt, words),
            keys: List::of(Vec::new(rt.alloc())),
        },
        "delete" => Request::DeleteTable {
            table: table(rt, words),
        },
        "enable" => Request::EnableTable {
            table: table(rt, words),
        },
        "disable" => Request::DisableTable {
            table: table(rt, words),
        },
        "modify" => Request::ModifyTable {
            table: table(rt, words),
            version: 2,
        },
        _ => region_request(rt, verb, words),
    }
}

// The args of a call, or of a root. The first id of a root is 11.
fn other_args(rt: &(impl Abort + AllocGlobal), kind: &str, words: &str) -> Args
    ensures { HasFirst result }
{
    let (name, at) = first_word(words);
    match kind {
        "assign-call" => Args::AssignCall {
            region: region(rt, name),
            server: server(rt, at),
        },
        "close-call" => Args::CloseCall {
            region: region(rt, name),
            server: server(rt, at),
        },
        "fence-call" => Args::FenceCall {
            server: server(rt, name),
        },
        "layout-call" => Args::LayoutCall { root: Pid(1) },
        "sweep-layout" => Args::SweepLayout { root: Pid(1) },
        _ => Args::Root {
            request: request(rt, kind, words),
            first: 11,
        },
    }
}

/// What a procedure works on: a kind that isn't submitted, or a request, and its fields.
pub fn args(rt: &(impl Abort + AllocGlobal), work: &str) -> Args
    ensures { HasFirst result }
{
    let (kind, words) = first_word(work);
    match kind {
        "transit" => Args::Transit {
            region: region(rt, words),
            goal: Goal::Assign,
            to: None,
        },
        "crash" => Args::Crash {
            server: server(rt, words),
        },
        "add-regions" => Args::AddRegions {
            table: table(rt, words),
            first: 11,
            bounds: List::of(Vec::new(rt.alloc())),
        },
        "drop-regions" => Args::DropRegions {
            table: table(rt, words),
            ids: List::of(Vec::new(rt.alloc())),
        },
        _ => other_args(rt, kind, words),
    }
}
