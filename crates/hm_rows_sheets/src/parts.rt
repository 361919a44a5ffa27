//! Parts of a case: requests, args, rows, edits, children and calls.
use crate::names::{
    cut, first_word, ids, key, keys, ns, perhaps_server, region, regions, server, table,
};
use crate::words::{goal, number, region_state, status, table_state};
use hm_data::{Args, CatKey, CatRow, Child, Edit, Place, Request, Status, Verb};
use hm_names::{Copied, KeyRange, List, Pid, RowKey};
use std::alloc::AllocGlobal;
use std::process::Abort;

fn namespace_request(rt: &(impl Abort + AllocGlobal), verb: &str, name: &str) -> Request {
    if verb == "namespace" {
        return Request::CreateNamespace { ns: ns(rt, name) };
    }
    assert!(rt; verb == "drop-namespace");
    Request::DropNamespace { ns: ns(rt, name) }
}

fn region_request(rt: &(impl Abort + AllocGlobal), verb: &str, words: &str) -> Request {
    let (name, more) = first_word(words);
    match verb {
        "split" => Request::SplitRegion {
            region: region(rt, name),
            key: key(rt, more),
        },
        "merge" => Request::MergeRegions {
            regions: regions(rt, words),
        },
        "move" => Request::Move {
            region: region(rt, name),
            to: perhaps_server(rt, more),
        },
        _ => namespace_request(rt, verb, name),
    }
}

/// A request.
fn request(rt: &(impl Abort + AllocGlobal), line: &str) -> Request {
    let (verb, words) = first_word(line);
    let (name, more) = first_word(words);
    match verb {
        "create" => Request::CreateTable {
            table: table(rt, name),
            keys: keys(rt, more),
        },
        "delete" => Request::DeleteTable {
            table: table(rt, name),
        },
        "enable" => Request::EnableTable {
            table: table(rt, name),
        },
        "disable" => Request::DisableTable {
            table: table(rt, name),
        },
        "modify" => Request::ModifyTable {
            table: table(rt, name),
            version: number(rt, more),
        },
        _ => region_request(rt, verb, words),
    }
}

fn root(rt: &(impl Abort + AllocGlobal), words: &str) -> Args {
    let (first, line) = first_word(words);
    Args::Root {
        request: request(rt, line),
        first: number(rt, first),
    }
}

fn call_args(rt: &(impl Abort + AllocGlobal), kind: &str, words: &str) -> Args {
    let (name, at) = first_word(words);
    match kind {
        "assign-call" => Args::AssignCall {
            region: region(rt, name),
            server: server(rt, at),
        },
        "close-call" => Args::CloseCall {
            region: region(rt, name),
            server: server(rt, at),
        },
        "fence-call" => Args::FenceCall {
            server: server(rt, name),
        },
        "layout-call" => Args::LayoutCall {
            root: Pid(number(rt, name)),
        },
        _ => {
            assert!(rt; kind == "sweep-layout");
            Args::SweepLayout {
                root: Pid(number(rt, name)),
            }
        }
    }
}

/// What a procedure works on: `root FIRST REQUEST`, or the name of a kind that isn't submitted and its fields.
pub fn args(rt: &(impl Abort + AllocGlobal), text: &str) -> Args {
    let (kind, words) = first_word(text);
    let (name, more) = first_word(words);
    match kind {
        "root" => root(rt, words),
        "transit" => Args::Transit {
            region: region(rt, name),
            goal: goal(more).expect(rt, "a goal"),
            to: None,
        },
        "crash" => Args::Crash {
            server: server(rt, name),
        },
        "add-regions" => {
            let (first, bounds) = first_word(more);
            Args::AddRegions {
                table: table(rt, name),
                first: number(rt, first),
                bounds: keys(rt, bounds),
            }
        }
        "drop-regions" => Args::DropRegions {
            table: table(rt, name),
            ids: ids(rt, more),
        },
        _ => call_args(rt, kind, words),
    }
}

/// A child or a follower: `transits TABLE GOAL IDS`, or args.
pub fn child(rt: &(impl Abort + AllocGlobal), text: &str) -> Child {
    let (kind, words) = first_word(text);
    if kind != "transits" {
        return Child::One(args(rt, text));
    }
    let (name, more) = first_word(words);
    let (to_do, numbers) = first_word(more);
    Child::Transits {
        table: table(rt, name),
        ids: ids(rt, numbers),
        goal: goal(to_do).expect(rt, "a goal"),
    }
}

fn table_row(rt: &impl Abort, words: &str) -> CatRow {
    let (state, version) = first_word(words);
    CatRow::Table {
        state: table_state(state).expect(rt, "a state"),
        version: number(rt, version),
    }
}

fn region_row(rt: &(impl Abort + AllocGlobal), words: &str) -> CatRow {
    let (now, more) = first_word(words);
    let (start, more) = first_word(more);
    let (end, parents) = first_word(more);
    CatRow::Region {
        range: KeyRange {
            start: key(rt, start),
            end: key(rt, end),
        },
        status: status(now).expect(rt, "a status"),
        parents: ids(rt, parents),
    }
}

/// A row of the catalog: `ns NAME`, `table NAME STATE VERSION` or `region NAME STATUS START END PARENTS`.
pub fn row(rt: &(impl Abort + AllocGlobal), text: &str) -> (CatKey, CatRow) {
    let (kind, words) = first_word(text);
    let (name, more) = first_word(words);
    match kind {
        "ns" => (CatKey::Ns(ns(rt, name)), CatRow::Ns),
        "table" => (CatKey::Table(table(rt, name)), table_row(rt, more)),
        _ => {
            assert!(rt; kind == "region");
            (CatKey::Region(region(rt, name)), region_row(rt, more))
        }
    }
}

fn numbered_region(rt: &(impl Abort + AllocGlobal), name: &str, id: u64) -> CatKey {
    let text = format!(in rt.alloc(); "{name},{id}").expect(rt, "memory");
    let region = region(rt, &text);
    drop(text);
    CatKey::Region(region)
}

fn live_row(rt: &(impl Abort + AllocGlobal), start: &RowKey, end: &RowKey) -> CatRow {
    CatRow::Region {
        range: KeyRange {
            start: start.copy(rt.alloc()).expect(rt, "memory"),
            end: end.copy(rt.alloc()).expect(rt, "memory"),
        },
        status: Status::Live,
        parents: List::of(Vec::new(rt.alloc())),
    }
}

fn gap_rows(
    rt: &(impl Abort + AllocGlobal),
    name: &str,
    first: u64,
    bounds: &[RowKey],
) -> Vec<(CatKey, CatRow)> {
    let mut rows = Vec::new(rt.alloc());
    let mut id = first;
    let mut rest = bounds;
    while let [start, following @ ..] = rest {
        if let [end, ..] = following {
            let row = (numbered_region(rt, name, id), live_row(rt, start, end));
            rows.push(row).expect(rt, "memory");
        }
        id = id.saturating_add(1);
        rest = following;
    }
    rows
}

/// Rows of adjacent live regions: the table, the first id, and the bounds.
pub fn gaps(rt: &(impl Abort + AllocGlobal), words: &str) -> Vec<(CatKey, CatRow)> {
    let (name, more) = first_word(words);
    let (first, bounds) = first_word(more);
    let keys = keys(rt, bounds);
    let rows = gap_rows(rt, name, number(rt, first), keys.as_slice());
    drop(keys);
    rows
}

/// A row that is added, or else removed.
pub fn alone((key, row): (CatKey, CatRow), adds: bool) -> Edit {
    if adds {
        return Edit {
            key,
            before: None,
            after: Some(row),
        };
    }
    Edit {
        key,
        before: Some(row),
        after: None,
    }
}

// A row that another takes the place of: both of them, with an arrow between.
fn changed(rt: &(impl Abort + AllocGlobal), words: &str) -> Edit {
    let (before, after) = cut(words, " > ");
    let (key, before) = row(rt, before);
    let (same_key, after) = row(rt, after);
    drop(same_key);
    Edit {
        key,
        before: Some(before),
        after: Some(after),
    }
}

/// An edit that adds a row, drops it or sets it.
pub fn edit(rt: &(impl Abort + AllocGlobal), verb: &str, words: &str) -> Edit {
    match verb {
        "add" => alone(row(rt, words), true),
        "drop" => alone(row(rt, words), false),
        _ => {
            assert!(rt; verb == "set");
            changed(rt, words)
        }
    }
}

/// Where a region is: its state, and the server if there is one.
pub fn place(rt: &(impl Abort + AllocGlobal), words: &str) -> Place {
    let (state, at) = first_word(words);
    Place {
        state: region_state(state).expect(rt, "a state"),
        server: perhaps_server(rt, at),
    }
}

/// What a call asks for.
pub fn verb(rt: &(impl Abort + AllocGlobal), words: &str) -> Verb {
    let (asks, name) = first_word(words);
    match asks {
        "assign" => Verb::AssignRegion(region(rt, name)),
        "close" => Verb::CloseRegion(region(rt, name)),
        "fence" => Verb::Fence(server(rt, name)),
        "layout" => Verb::Layout(Pid(number(rt, name))),
        _ => {
            assert!(rt; asks == "sweep");
            Verb::Sweep(Pid(number(rt, name)))
        }
    }
}
