//! What images journals have, and why others have none. What is expected was asked of an independent implementation.
use crate::based::{base, others};
use crate::journal::{add, add_all, sheets, state_at};
use crate::texts::is_told;
use hm_data::{Entry, Part, Sheet};
use hm_entry::decode;
use hm_names::{List, Pid, Same};
use hm_state::State;
use std::alloc::{AllocError, AllocGlobal, Global};
use std::process::Abort;

// How many entries of the journal there are, and whether sheets are adopted then by which no layout is swept; what follows them; how
// many entries the image tells, and the last procedure's number; and the entries that spell its parts behind the head.
type Case = (
    usize,
    bool,
    &'static [&'static [u8]],
    u64,
    u64,
    &'static [&'static [u8]],
);

const CASES: [Case; 5] = [
    // Nothing but the start.
    (
        1,
        false,
        &[],
        1,
        0,
        &[b"\x08\x01\x07\0default", b"\x08\x01\x05\0hbase"],
    ),
    // Sheets that were adopted are in the head.
    (
        1,
        true,
        &[],
        2,
        0,
        &[b"\x08\x01\x07\0default", b"\x08\x01\x05\0hbase"],
    ),
    // A table, and a split of one of its regions that is undone.
    (
        55,
        false,
        &[],
        55,
        16,
        &[
            b"\x08\x01\x07\0default",
            b"\x08\x01\x05\0hbase",
            b"\x08\x02\x07\0default\x01\0t\x05\0\0\0\0\0\0\0\x01\x01\x01\0\0\0\0\0\0\0",
            b"\x08\x03\x07\0default\x01\0t\x01\0\0\0\0\0\0\0\0\0\x01\0f\0\0\0\x02\x01\x02\0h1\x94>\x01\0\0\0\0\0\0\0",
            b"\x08\x03\x07\0default\x01\0t\x02\0\0\0\0\0\0\0\x01\0f\x01\0m\0\0\0\x02\x01\x02\0h1\x94>\x01\0\0\0\0\0\0\0",
            b"\x08\x03\x07\0default\x01\0t\x03\0\0\0\0\0\0\0\x01\0m\0\0\0\0\0\x02\x01\x02\0h1\x94>\x01\0\0\0\0\0\0\0",
            b"\x08\x04\x02\0h1\x94>\x01\0\0\0\0\0\0\0\0",
            b"\x08\x05\x01\0\0\0\0\0\0\0\x01\0\0\0\0\0\0\0\x01\0\0\0\0\0\0\0\x03\x07\0default\x01\0t\x02\0\x01\0f\x01\0m\x01\0\0\0\0\0\0\0\0",
            b"\x08\x05\n\0\0\0\0\0\0\0\x01\0\0\0\0\0\0\0\x02\0\0\0\0\0\0\0\x08\x07\0default\x01\0t\x02\0\0\0\0\0\0\0\x01\0h\x04\0\0\0\0\0\0\0\x01\x0c",
            b"\x08\x05\x0e\0\0\0\0\0\0\0\0\0\0\0\0\0\0\0\0\0\0\0\0\0\0\0\x1b\n\0\0\0\0\0\0\0\0",
            b"\x08\x05\x0f\0\0\0\0\0\0\0\0\0\0\0\0\0\0\0\0\0\0\0\0\0\0\0\xff\x07\0default\x01\0t\x02\0\0\0\0\0\0\0\0\0\0",
            b"\x08\x06\x01\0\0\0\0\0\0\0",
        ],
    ),
    // A server that is fenced.
    (
        1,
        false,
        &[
            b"\x05\x02\0h9\x01\0\x01\0\0\0\0\0\0\0",
            b"\x06\x02\0h9\x01\0\x01\0\0\0\0\0\0\0",
            b"\x02\x01\0\0\0\0\0\0\0\0\x01\x01\0\0\x01\0\x19\x02\0h9\x01\0\x01\0\0\0\0\0\0\0\0\0\0\0",
            b"\x02\x02\0\0\0\0\0\0\0\0\x02\x01\0\0\0\0\x01\x02\x02\0h9\x01\0\x01\0\0\0\0\0\0\0\0\0\0",
            b"\x04\x02\0\0\0\0\0\0\0\x05",
            b"\x02\x02\0\0\0\0\0\0\0\0\x03\x05\0\0\0\0\0\0\0\0",
            b"\x02\x01\0\0\0\0\0\0\0\0\x03\0\0\0\0\0\0\0\0\0",
        ],
        8,
        2,
        &[
            b"\x08\x01\x07\0default",
            b"\x08\x01\x05\0hbase",
            b"\x08\x04\x02\0h9\x01\0\x01\0\0\0\0\0\0\0\x01",
            b"\x08\x05\x01\0\0\0\0\0\0\0\0\0\0\0\0\0\0\0\0\0\0\0\0\0\0\0\x0b\x02\0h9\x01\0\x01\0\0\0\0\0\0\0\0",
        ],
    ),
    // A table that is aborted before it is made: what was drawn for it stays.
    (
        1,
        false,
        &[
            b"\x01\0\0\0\0\0\0\0\0\0\0\0\0\0\0\0\0\x03\x07\0default\x01\0u\0\0",
            b"\x07\x01\0\0\0\0\0\0\0",
            b"\x02\x01\0\0\0\0\0\0\0\0\x04\r\0\0\0\0\0\0\0\0",
        ],
        4,
        1,
        &[
            b"\x08\x01\x07\0default",
            b"\x08\x01\x05\0hbase",
            b"\x08\x02\x07\0default\x01\0u\x01\0\0\0\0\0\0\0\0",
            b"\x08\x05\x01\0\0\0\0\0\0\0\0\0\0\0\0\0\0\0\0\0\0\0\0\0\0\0\x03\x07\0default\x01\0u\0\0\x01\0\0\0\0\0\0\0\x01\r",
        ],
    ),
];

// How many entries of the journal there are that has no image, and why not.
const UNSETTLED: [(usize, &str); 4] = [
    (3, "unsettled 1"),
    (10, "unsettled 2"),
    (58, "unsettled 2"),
    (66, "unsettled 5"),
];

const UP: &[u8] = b"\x05\x02\0h1\x01\0\x01\0\0\0\0\0\0\0";

const SUBMIT: &[u8] = b"\x01\0\0\0\0\0\0\0\0\0\0\0\0\0\0\0\0\x01\x05\0hbase";

// How many entries a base tells, its last procedure's number, and what follows it; and what is told of the image then: the same of it and
// how many parts it has behind its head, or why there is none.
const OLD: [(u64, u64, &[&[u8]], &str); 6] = [
    (1 << 48, 1 << 48, &[], "281474976710656 281474976710656 2"),
    (1 << 48, 3, &[UP], "too old 281474976710657"),
    (7, 1 << 48, &[UP], "8 281474976710656 3"),
    (7, 1 << 48, &[SUBMIT], "unsettled 1"),
    (
        7,
        1 << 48,
        &[
            SUBMIT,
            b"\x02\x01\0\0\0\0\0\x01\0\0\x04\x01\0\0\0\0\0\0\0\0",
        ],
        "too old 281474976710657",
    ),
    (
        7,
        (1 << 48) - 1,
        &[SUBMIT, b"\x02\0\0\0\0\0\0\x01\0\0\x04\x01\0\0\0\0\0\0\0\0"],
        "9 281474976710656 3",
    ),
];

// The part that an entry spells.
fn part_of(rt: &(impl Abort + AllocGlobal), bytes: &[u8]) -> Part {
    match decode(rt.alloc(), bytes) {
        Ok(Entry::Base { part }) => part,
        Ok(other) => {
            drop(other);
            panic!(rt; "no part")
        }
        Err(_) => panic!(rt; "no entry"),
    }
}

fn sheets_of(rt: &(impl Abort + AllocGlobal), adopts: bool) -> List<Sheet> {
    if adopts { others(rt) } else { sheets(rt) }
}

// The parts that a case's image has.
fn expected(rt: &(impl Abort + AllocGlobal), case: &Case) -> List<Part> {
    let (_, adopts, _, entries, last, shown) = case;
    let head = Part::Head {
        entries: *entries,
        last: Pid(*last),
        parts: shown.len() as u64,
        sheets: sheets_of(rt, *adopts),
    };
    let mut parts = Vec::new(rt.alloc());
    parts.push(head).expect(rt, "memory");
    for bytes in *shown {
        parts.push(part_of(rt, bytes)).expect(rt, "memory");
    }
    List::of(parts)
}

// Adopts sheets by which no layout is swept.
fn adopt(rt: &(impl Abort + AllocGlobal), state: &mut State) {
    let entry = Entry::Adopt { sheets: others(rt) };
    assert!(rt; add(rt, state, &entry) == 0);
    drop(entry);
}

// The state of a case's journal.
fn state_of(rt: &(impl Abort + AllocGlobal), case: &Case) -> State {
    let (count, adopts, more, _, _, _) = case;
    let mut state = state_at(rt, *count);
    if *adopts {
        adopt(rt, &mut state);
    }
    add_all(rt, &mut state, more);
    state
}

#[test]
fn image_has_the_parts_that_a_journal_came_to(rt: HostRuntime) {
    for case in &CASES {
        let state = state_of(&rt, case);
        let Ok(parts) = state.image(rt.alloc()) else {
            panic!(rt; "no image of {}", case.0);
        };
        drop(state);
        let wanted = expected(&rt, case);
        assert!(rt; parts.same(&wanted), "another image of {}", case.0);
        drop(parts);
        drop(wanted);
    }
}

fn put_head(parts: &[Part], out: &mut String) -> Result<(), AllocError> {
    match parts.first() {
        Some(
            Part::Head {
                entries,
                last,
                parts,
                sheets: _,
            },
        ) => write!(out, "{entries} {} {parts}", last.0),
        _ => out.push_str("no head"),
    }
}

// What is told of a state's image.
fn told(alloc: Global, state: &State) -> Result<String, AllocError> {
    let mut text = String::new(alloc);
    match state.image(alloc) {
        Ok(parts) => put_head(parts.as_slice(), &mut text)?,
        Err(why) => write!(text, "{why}")?,
    }
    Ok(text)
}

#[test]
fn image_is_refused_while_a_procedure_is_unfinished(rt: HostRuntime) {
    for (count, expected) in UNSETTLED {
        let state = state_at(&rt, count);
        let told = told(rt.alloc(), &state);
        drop(state);
        is_told(&rt, "an unsettled journal", told, expected);
    }
}

#[test]
fn image_is_refused_of_a_journal_that_is_too_old(rt: HostRuntime) {
    for (entries, last, more, expected) in OLD {
        let Ok(mut state) = State::from_base(rt.alloc(), base(&rt, entries, Pid(last))) else {
            panic!(rt; "no base");
        };
        add_all(&rt, &mut state, more);
        let told = told(rt.alloc(), &state);
        drop(state);
        is_told(&rt, "an old journal", told, expected);
    }
}
