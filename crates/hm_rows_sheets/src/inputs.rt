//! What a step of a case sees, read from its text.
use crate::names::{cut, first_word, region, server};
use crate::parts::{args, edit, gaps, place, row};
use crate::words::{number, told};
use hm_data::{Args, CatKey, CatRow, Edit, Place, StepIn, Told, Turn};
use hm_names::{List, Pid, RegionName, ServerName};
use std::alloc::{AllocGlobal, Global};
use std::process::Abort;

// What was read so far of what a step sees.
#[derive(Drop)]
struct Seen {
    rows: Vec<(CatKey, CatRow)>,
    ends: Vec<(Pid, Told)>,
    places: Vec<Place>,
    on_server: Vec<RegionName>,
    picks: Vec<ServerName>,
    edits: Vec<Edit>,
    marks: Marks,
}

// Numbers and marks of it.
#[derive(Clone, Copy)]
struct Marks {
    tries: u32,
    report: Option<Told>,
    fenced: bool,
    aborted: bool,
    undoes: bool,
}

impl Marks {
    // An item of numbers and marks.
    fn take(&mut self, rt: &impl Abort, kind: &str, word: &str) {
        match kind {
            "tries" => self.tries = u32::try_from(number(rt, word)).expect(rt, "tries"),
            "report" => self.report = Some(told(word).expect(rt, "a report")),
            "fenced" => self.fenced = true,
            "aborted" => self.aborted = true,
            _ => {
                assert!(rt; kind == "undo");
                self.undoes = true;
            }
        }
    }
}

// Rows of adjacent live regions.
fn push_gaps(rt: &(impl Abort + AllocGlobal), rows: &mut Vec<(CatKey, CatRow)>, words: &str) {
    let mut more = gaps(rt, words);
    rows.append(&mut more).expect(rt, "memory");
    drop(more);
}

fn end(rt: &impl Abort, words: &str) -> (Pid, Told) {
    let (pid, word) = first_word(words);
    (Pid(number(rt, pid)), told(word).expect(rt, "an end"))
}

impl Seen {
    fn new(alloc: Global) -> Seen {
        let marks = Marks {
            tries: 0,
            report: None,
            fenced: false,
            aborted: false,
            undoes: false,
        };
        Seen {
            rows: Vec::new(alloc),
            ends: Vec::new(alloc),
            places: Vec::new(alloc),
            on_server: Vec::new(alloc),
            picks: Vec::new(alloc),
            edits: Vec::new(alloc),
            marks,
        }
    }

    // An item of rows, and of the edits of the step that is undone.
    fn take_row(&mut self, rt: &(impl Abort + AllocGlobal), kind: &str, item: &str, words: &str) {
        match kind {
            "ns" | "table" | "region" => self.rows.push(row(rt, item)).expect(rt, "memory"),
            "add" | "drop" | "set" => self.edits.push(edit(rt, kind, words)).expect(rt, "memory"),
            _ => self.marks.take(rt, kind, words),
        }
    }

    // Any item.
    fn take(&mut self, rt: &(impl Abort + AllocGlobal), item: &str) {
        let (kind, words) = first_word(item);
        match kind {
            "end" => self.ends.push(end(rt, words)).expect(rt, "memory"),
            "place" => self.places.push(place(rt, words)).expect(rt, "memory"),
            "on" => self.on_server.push(region(rt, words)).expect(rt, "memory"),
            "pick" => self.picks.push(server(rt, words)).expect(rt, "memory"),
            "regions" => push_gaps(rt, &mut self.rows, words),
            _ => self.take_row(rt, kind, item, words),
        }
    }
}

fn turn(edits: Vec<Edit>, undoes: bool) -> Turn {
    if undoes {
        return Turn::Undo {
            edits: List::of(edits),
        };
    }
    drop(edits);
    Turn::Step
}

/// The last of some places, if there is one.
pub fn last_place(mut places: Vec<Place>) -> Option<Place> {
    let place = places.pop();
    drop(places);
    place
}

fn last_pick(mut picks: Vec<ServerName>) -> Option<ServerName> {
    let pick = picks.pop();
    drop(picks);
    pick
}

// What the step sees of which that was read.
fn seen_by(seen: Seen, kind: u8, row: u8, args: Args) -> StepIn {
    let Seen {
        rows,
        ends,
        places,
        on_server,
        picks,
        edits,
        marks,
    } = seen;
    StepIn {
        pid: Pid(7),
        root: Pid(5),
        kind,
        edition: 0,
        row,
        args,
        tries: marks.tries,
        rows: List::of(rows),
        ends: List::of(ends),
        report: marks.report,
        place: last_place(places),
        fenced: marks.fenced,
        on_server: List::of(on_server),
        pick: last_pick(picks),
        aborted: marks.aborted,
        turn: turn(edits, marks.undoes),
    }
}

/// What a step of procedure 7 of root 5 sees: its args, and then items, each after a semicolon.
pub fn input(rt: &(impl Abort + AllocGlobal), kind: u8, row: u8, text: &str) -> StepIn {
    let (work, items) = cut(text, "; ");
    let mut seen = Seen::new(rt.alloc());
    for item in items.split("; ") {
        if !item.is_empty() {
            seen.take(rt, item);
        }
    }
    seen_by(seen, kind, row, args(rt, work))
}
