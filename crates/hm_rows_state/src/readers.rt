//! What the readers of a state tell of the journal, at some of its lengths. What is expected was asked of an independent
//! implementation.
use crate::journal::state_at;
use crate::texts::is_told;
use hm_data::{CatKey, CatRow, Place, Record, StepIn, Turn};
use hm_names::{Nonce, Pid, TableName, parse_decimal};
use hm_state::State;
use std::alloc::{AllocError, AllocGlobal, Global};
use std::process::Abort;

// How many entries there are, what is asked, and what is told.
type Case = (usize, &'static str, &'static str);

// The last number, how many roots haven't ended, how many numbers were drawn for the table, and who was made under two nonces.
const COUNTS: &[Case] = &[
    (1, "counts", "0 0 0 None None"),
    (3, "counts", "1 1 3 Some(Pid(1)) None"),
    (31, "counts", "9 1 3 Some(Pid(1)) None"),
    (32, "counts", "9 0 3 Some(Pid(1)) None"),
    (33, "counts", "10 1 5 Some(Pid(1)) Some(Pid(10))"),
    (55, "counts", "16 0 5 Some(Pid(1)) Some(Pid(10))"),
    (66, "counts", "22 1 5 Some(Pid(1)) Some(Pid(10))"),
];

// Of each procedure its number, its parent's or 0, its kind, the row that is next or 255 where it has ended, how often its region failed
// to open, how far it is, whether its call is settled, and its children's numbers.
const UNDOING: &str =
    "1 0 3 255 0 Success true 2 3 4 5 6;2 1 26 255 0 Success true;3 1 20 255 0 Success true;4 1 10 255 0 Success true 7;5 1 10 255 0 Success true 8;6 1 10 255 0 Success true 9;7 4 23 255 0 Success true;8 5 23 255 0 Success true;9 6 23 255 0 Success true;10 0 8 3 0 Failed(LayoutRefused) false 11 13;11 10 10 255 0 Success true 12;12 11 24 255 0 Success true;13 10 26 255 0 Failed(LayoutRefused) true;";

const CRASHED: &str =
    "1 0 3 255 0 Success true 2 3 4 5 6;2 1 26 255 0 Success true;3 1 20 255 0 Success true;4 1 10 255 0 Success true 7;5 1 10 255 0 Success true 8;6 1 10 255 0 Success true 9;7 4 23 255 0 Success true;8 5 23 255 0 Success true;9 6 23 255 0 Success true;10 0 8 255 0 RolledBack(LayoutRefused) true 11 13;11 10 10 255 0 RolledBack(LayoutRefused) true 12;12 11 24 255 0 RolledBack(LayoutRefused) true;13 10 26 255 0 RolledBack(LayoutRefused) true;14 0 27 255 0 Success true;15 0 10 255 0 Success true 16;16 15 23 255 0 Success true;17 0 11 1 0 Waiting false 18 19 20 21;18 17 25 255 0 Success true;19 17 10 2 0 Waiting false 22;20 17 10 1 0 Runnable false;21 17 10 1 0 Runnable false;22 19 23 0 0 Runnable false;";

const PROCEDURES: &[Case] = &[
    (1, "procedures", ""),
    (44, "procedures", UNDOING),
    (66, "procedures", CRASHED),
];

// Of each region its place.
const PLACES: &[Case] = &[
    (2, "places", ""),
    (14, "places", "t,1 Opening h1,16020,1;"),
    (
        36,
        "places",
        "t,1 Opened h1,16020,1;t,2 Closing h1,16020,1;t,3 Opened h1,16020,1;",
    ),
    (
        40,
        "places",
        "t,1 Opened h1,16020,1;t,2 Closed -;t,3 Opened h1,16020,1;",
    ),
    (
        58,
        "places",
        "t,1 Opened h1,16020,1;t,2 Opened h1,16020,1;t,3 Opened h1,16020,1;",
    ),
    (
        61,
        "places",
        "t,1 Opened h1,16020,1;t,2 Opened h1,16020,1;t,3 Opened h1,16020,1;",
    ),
    (
        66,
        "places",
        "t,1 Opening h2,16020,1;t,2 Opening h2,16020,1;t,3 Opening h2,16020,1;",
    ),
];

// Of each server whether it is live, whether it is fenced, and how many regions are at it.
const SERVERS: &[Case] = &[
    (2, "servers", "h1,16020,1 true false 0;"),
    (14, "servers", "h1,16020,1 true false 1;"),
    (36, "servers", "h1,16020,1 true false 3;"),
    (40, "servers", "h1,16020,1 true false 2;"),
    (
        58,
        "servers",
        "h1,16020,1 false false 3;h2,16020,1 true false 0;",
    ),
    (
        61,
        "servers",
        "h1,16020,1 false true 3;h2,16020,1 true false 0;",
    ),
    (
        66,
        "servers",
        "h1,16020,1 false true 0;h2,16020,1 true false 3;",
    ),
];

// The rows of the catalog; a region's with its range and its status.
const ROWS: &[Case] = &[
    (1, "rows", "default;hbase;"),
    (5, "rows", "default;hbase;t Disabled 1;"),
    (
        11,
        "rows",
        "default;hbase;t Disabled 1;t,1 \\- f Live;t,2 f m Live;t,3 m \\- Live;",
    ),
    (
        12,
        "rows",
        "default;hbase;t Enabling 1;t,1 \\- f Live;t,2 f m Live;t,3 m \\- Live;",
    ),
    (
        66,
        "rows",
        "default;hbase;t Enabled 1;t,1 \\- f Live;t,2 f m Live;t,3 m \\- Live;",
    ),
];

// Whose step is undone next of a root, and its row.
const UNDOS: &[Case] = &[
    (4, "undo 1", ""),
    (5, "undo 1", "1 1"),
    (6, "undo 1", "1 2"),
    (10, "undo 1", "1 2"),
    (11, "undo 1", "3 0"),
    (12, "undo 1", "1 4"),
    (31, "undo 1", "1 4"),
    (32, "undo 1", ""),
    (34, "undo 10", ""),
    (35, "undo 10", "10 1"),
    (44, "undo 10", "10 2"),
    (45, "undo 10", "10 1"),
    (47, "undo 10", ""),
    (55, "undo 10", ""),
];

// The kind and the row that a procedure's next step sees; how many rows of the catalog, ends of children and regions to assign;
// the report, the place's state, whether it is fenced, and how many edits an undo finds. These were worked out by hand.
const INPUTS: &[Case] = &[
    (3, "step 1", "3 0, 1 0 0, None None false None"),
    (8, "step 2", "26 1, 0 0 0, Some(LaidOut) None false None"),
    (9, "step 1", "3 3, 2 1 0, None None false None"),
    (13, "step 4", "10 0, 2 0 0, None Some(Offline) false None"),
    (24, "step 4", "10 2, 2 1 0, None Some(Opening) false None"),
    (33, "step 10", "8 0, 2 0 0, None None false None"),
    (44, "step 10", "8 2, 2 0 0, None None false Some(0)"),
    (45, "step 10", "8 1, 2 0 0, None None false Some(0)"),
    (57, "step 17", "11 0, 0 0 3, None None false None"),
    (61, "step 17", "11 1, 0 1 3, None None false None"),
    (62, "step 19", "10 0, 2 0 0, None Some(Opened) true None"),
];

fn put_counts(state: &State, table: &TableName, out: &mut String) -> Result<(), AllocError> {
    let last = state.last_pid();
    let unfinished = state.unfinished();
    let drawn = state.drawn(table);
    let first = state.by_nonce(&Nonce {
        group: 1,
        number: 1,
    });
    let second = state.by_nonce(&Nonce {
        group: 1,
        number: 2,
    });
    write!(out, "{last} {unfinished} {drawn} {first:?} {second:?}")
}

fn put_counts_of(rt: &(impl Abort + AllocGlobal), state: &State, out: &mut String) {
    let table = TableName::parse(rt.alloc(), b"t").expect(rt, "a table");
    let put = put_counts(state, &table, out);
    drop(table);
    put.expect(rt, "memory");
}

// Puts what stands of a procedure.
fn put_record(record: &Record, ended: bool, out: &mut String) -> Result<(), AllocError> {
    let parent = match record.parent {
        Some(parent) => parent.0,
        None => 0,
    };
    let row = if ended { 255 } else { record.row };
    let pid = record.pid.0;
    let kind = record.kind;
    let tries = record.tries;
    let phase = &record.phase;
    write!(out, "{pid} {parent} {kind} {row} {tries} {phase:?}")
}

// Puts the numbers of a procedure's children.
fn put_children(
    alloc: Global,
    state: &State,
    pid: Pid,
    out: &mut String,
) -> Result<(), AllocError> {
    let children = state.procedures().children(alloc, pid)?;
    let put = put_numbers(children.as_slice(), out);
    drop(children);
    put
}

fn put_numbers(pids: &[Pid], out: &mut String) -> Result<(), AllocError> {
    for pid in pids {
        write!(out, " {}", pid.0)?;
    }
    out.push_str(";")
}

fn put_procedure(
    alloc: Global,
    state: &State,
    record: &Record,
    out: &mut String,
) -> Result<(), AllocError> {
    let ended = state.procedures().has_ended(record.pid);
    put_record(record, ended, out)?;
    let settled = state.procedures().is_settled(record.pid);
    write!(out, " {settled}")?;
    put_children(alloc, state, record.pid, out)
}

fn put_procedures(alloc: Global, state: &State, out: &mut String) -> Result<(), AllocError> {
    for pid in 0..=state.last_pid() {
        if let Some(record) = state.find(Pid(pid)) {
            put_procedure(alloc, state, record, out)?;
        }
    }
    Ok(())
}

fn put_place(place: &Place, out: &mut String) -> Result<(), AllocError> {
    let state = &place.state;
    match &place.server {
        Some(server) => write!(out, "{state:?} {server};"),
        None => write!(out, "{state:?} -;"),
    }
}

fn put_places(state: &State, out: &mut String) -> Result<(), AllocError> {
    for (region, place) in state.places().all().iter() {
        write!(out, "{region} ")?;
        put_place(place, out)?;
    }
    Ok(())
}

fn put_servers(state: &State, out: &mut String) -> Result<(), AllocError> {
    for (server, _) in state.servers().all().iter() {
        let live = state.servers().live(server);
        let fenced = state.servers().fenced(server);
        let load = state.places().load(server);
        write!(out, "{server} {live} {fenced} {load};")?;
    }
    Ok(())
}

fn put_row(row: (&CatKey, &CatRow), out: &mut String) -> Result<(), AllocError> {
    match row {
        (CatKey::Ns(ns), CatRow::Ns) => write!(out, "{ns};"),
        (CatKey::Table(table), CatRow::Table { state, version }) => {
            write!(out, "{table} {state:?} {version};")
        }
        (
            CatKey::Region(region),
            CatRow::Region {
                range,
                status,
                parents: _,
            },
        ) => {
            let start = &range.start;
            let end = &range.end;
            write!(out, "{region} {start} {end} {status:?};")
        }
        _ => Err(AllocError),
    }
}

fn put_rows(state: &State, out: &mut String) -> Result<(), AllocError> {
    for row in state.catalog().rows() {
        put_row(row, out)?;
    }
    Ok(())
}

fn put_undo(state: &State, root: Pid, out: &mut String) -> Result<(), AllocError> {
    match state.stack().next_undo(root) {
        Some((pid, row)) => write!(out, "{} {row}", pid.0),
        None => Ok(()),
    }
}

fn undone(turn: &Turn) -> Option<usize> {
    match turn {
        Turn::Undo { edits } => Some(edits.as_slice().len()),
        Turn::Step => None,
    }
}

fn put_input(at: &StepIn, out: &mut String) -> Result<(), AllocError> {
    let rows = at.rows.as_slice().len();
    let ends = at.ends.as_slice().len();
    let regions = at.on_server.as_slice().len();
    write!(out, "{} {}, {rows} {ends} {regions}, ", at.kind, at.row)?;
    let report = at.report;
    let place = match &at.place {
        Some(place) => Some(place.state),
        None => None,
    };
    let undone = undone(&at.turn);
    write!(out, "{report:?} {place:?} {} {undone:?}", at.fenced)
}

// Puts what a procedure's next step sees.
fn put_step(alloc: Global, state: &State, pid: Pid, out: &mut String) -> Result<(), AllocError> {
    if state.find(pid).is_none() {
        return out.push_str("no procedure");
    }
    let at = state.step_in(alloc, pid, None)?;
    let put = put_input(&at, out);
    drop(at);
    put
}

// Puts what is told of a procedure.
fn put_of(
    alloc: Global,
    state: &State,
    question: &str,
    out: &mut String,
) -> Result<(), AllocError> {
    let Some((verb, word)) = question.split_once(' ') else {
        return out.push_str("no question");
    };
    match parse_decimal(word.as_bytes()) {
        Some(number) if verb == "undo" => put_undo(state, Pid(number), out),
        Some(number) => put_step(alloc, state, Pid(number), out),
        None => out.push_str("no number"),
    }
}

fn told(
    rt: &(impl Abort + AllocGlobal),
    state: &State,
    question: &str,
) -> Result<String, AllocError> {
    let mut text = String::new(rt.alloc());
    let put = match question {
        "procedures" => put_procedures(rt.alloc(), state, &mut text),
        "places" => put_places(state, &mut text),
        "servers" => put_servers(state, &mut text),
        "rows" => put_rows(state, &mut text),
        "counts" => {
            put_counts_of(rt, state, &mut text);
            Ok(())
        }
        _ => put_of(rt.alloc(), state, question, &mut text),
    };
    put.expect(rt, "memory");
    Ok(text)
}

#[test]
fn readers_tell_counts_procedures_places_servers_rows_undos_and_steps(rt: HostRuntime) {
    for cases in [COUNTS, PROCEDURES, PLACES, SERVERS, ROWS, UNDOS, INPUTS] {
        for (count, question, expected) in cases {
            let state = state_at(&rt, *count);
            let told = told(&rt, &state, question);
            drop(state);
            is_told(&rt, question, told, expected);
        }
    }
}
