//! What each row of each sheet answers.
use crate::asks::can_step;
use crate::cases::{
    CALLS, LARGE_MERGES, MERGES, NAMESPACES, NEW_TABLES, SPLITS, TABLES, TRANSITS, UNDONE_MERGES,
    UNDOS,
};
use crate::inputs::input;
use crate::names::{cut, first_word};
use crate::outputs::output;
use crate::words::small;
use hm_data::{Answer, StepIn, StepOut, Turn};
use hm_names::{List, Same};
use hm_sheet::{Handler, is_kind, own_sheet, plain_step, sheet_for};
use hm_split::SplitHands;
use std::alloc::{AllocGlobal, Global};
use std::process::Abort;

/// What a step sees, and the text of what it answers.
pub fn parts<'a>(rt: &(impl Abort + AllocGlobal), case: &'a str) -> (StepIn, &'a str) {
    let (kind, rest) = first_word(case);
    let (row, rest) = cut(rest, " | ");
    let (seen, done) = cut(rest, " | ");
    (input(rt, small(rt, kind), small(rt, row), seen), done)
}

/// Compares what a step answers with what the text of a case says.
pub fn compare(rt: &(impl Abort + AllocGlobal), case: &str, out: StepOut, done: &str) {
    let expected = output(rt, done);
    let same = out.same(&expected);
    drop(out);
    drop(expected);
    assert!(rt; same, "{case}");
}

// What the sheet of a kind answers.
fn answered(rt: &(impl Abort + AllocGlobal), at: &StepIn) -> StepOut {
    assert!(rt; is_kind(at.kind));
    let sheet = own_sheet(rt.alloc(), at.kind).expect(rt, "memory");
    assert!(rt; can_step(&sheet, at));
    let out = plain_step(rt.alloc(), &sheet, at).expect(rt, "memory");
    drop(sheet);
    out
}

fn check_all(rt: &(impl Abort + AllocGlobal), cases: &[&str]) {
    for case in cases {
        let (at, done) = parts(rt, case);
        let out = answered(rt, &at);
        drop(at);
        compare(rt, case, out, done);
    }
}

#[test]
fn plain_step_answers_as_the_sheet_says(rt: HostRuntime) {
    check_all(&rt, NAMESPACES.as_slice());
    check_all(&rt, NEW_TABLES.as_slice());
    check_all(&rt, TABLES.as_slice());
    check_all(&rt, SPLITS.as_slice());
    check_all(&rt, MERGES.as_slice());
    check_all(&rt, LARGE_MERGES.as_slice());
    check_all(&rt, TRANSITS.as_slice());
    check_all(&rt, CALLS.as_slice());
    check_all(&rt, UNDOS.as_slice());
    check_all(&rt, UNDONE_MERGES.as_slice());
}

/// A step that was undone and did nothing else.
pub fn nothing(alloc: Global) -> StepOut {
    StepOut {
        answer: Answer::Undone,
        edits: List::of(Vec::new(alloc)),
        children: List::of(Vec::new(alloc)),
        call: None,
        place: None,
        followers: List::of(Vec::new(alloc)),
    }
}

// What the handler of splits and merges does.
fn handled(rt: &(impl Abort + AllocGlobal), hands: &mut SplitHands, at: &StepIn) -> StepOut {
    let Some(sheet) = sheet_for(hands.sheets(), at.kind) else {
        panic!(rt; "no sheet");
    };
    assert!(rt; can_step(sheet, at));
    let mut out = nothing(rt.alloc());
    let done = match at.turn {
        Turn::Step => hands.step(rt.alloc(), at, &mut out),
        Turn::Undo { edits: _ } => hands.undo(rt.alloc(), at, &mut out),
    };
    done.expect(rt, "memory");
    out
}

fn check_handled(rt: &(impl Abort + AllocGlobal), cases: &[&str]) {
    for case in cases {
        let (at, done) = parts(rt, case);
        let mut hands = SplitHands::new(rt.alloc()).expect(rt, "memory");
        let out = handled(rt, &mut hands, &at);
        drop(hands);
        drop(at);
        compare(rt, case, out, done);
    }
}

#[test]
fn the_handler_of_merges_answers_as_its_sheet_says(rt: HostRuntime) {
    check_handled(&rt, MERGES.as_slice());
    check_handled(&rt, LARGE_MERGES.as_slice());
    check_handled(&rt, UNDONE_MERGES.as_slice());
}
